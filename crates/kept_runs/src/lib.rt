//! The runs of a notebook's versions, kept so that a new version runs only the cells after those that it shares.
//!
//! Start at `Kept::run`, whose clause says nothing of sharing: what is answered is the serial run of the
//! version's cells. The serial run itself is in `cell_model`.
#![tactic(auto)]

mod kept;
#[cfg(test)]
mod tests;

pub use kept::Kept;
