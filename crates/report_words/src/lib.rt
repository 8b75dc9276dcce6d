//! The words in which sessions speak: what a line says, the report of a stream's lines, and what each
//! end of a session says of what was read and written.
//!
//! Read `specs/Reports.antt` first, then `specs/Says.antt`. Reading lines is not here, but in
//! `line_reader`; the sessions that meet these words are in `session_core`.
#![tactic(auto)]

mod said;
mod status;

pub use said::Said;
pub use status::SessionStatus;
