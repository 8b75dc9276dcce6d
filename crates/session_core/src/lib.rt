//! The serial session: from the lines of a stream to its report.
//!
//! Start at `serial_session`; `report_words` says what its clauses mean. The words of the command line
//! are not here, but in `vizier_cli`.
#![tactic(auto)]

mod book;
mod earned;
mod line;
mod session;

pub use session::serial_session;
