//! Tables from CSV files, with what can't be read repaired and marked.
//!
//! Start at `load` and at `specs/Load.antt`, which says what it gives. What the records of a file are is the
//! crate `csv`'s; fetching a file is not here.
#![tactic(auto)]

mod clean;
mod field;
mod file;
mod guess;
mod header;
mod laws;
mod record;
mod row;
mod strip;
#[cfg(test)]
mod tests;

pub use file::load;
pub use laws::{law_of_erasure, law_of_other_picks};
