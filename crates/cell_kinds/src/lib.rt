//! What each kind of cell gives, reads and may write, and how it is run.
//!
//! Start at `Kinds`, the work that runs every kind of cell, and read `specs/Kinds.antt` for what a
//! cell means. What a run of many cells is, is not here, but in `cell_model`.
#![tactic(auto)]

mod kinds;
mod laws;
mod load;
mod make;
mod sql;
#[cfg(test)]
mod tests;
#[cfg(test)]
mod tests_reads;
mod vizual;
mod written;

pub use kinds::Kinds;
pub use laws::law_of_erasure;
