//! The text of a report, and the calls that write it.
//!
//! A report is a block for each accepted version and a line for each refused edit. What the texts
//! are is in `specs/Report.antt`, beside docs/FORMATS.md, "Report"; start at `write_block`.
//! Literal texts of values and row ids are not here, but in `value_types`.
#![tactic(auto)]

mod block;
mod cells;
mod dataset;
mod names;
mod passing;
mod pieces;

pub use block::{write_block, write_refusal, write_starved};

#[cfg(test)]
mod tests;
#[cfg(test)]
mod tests_refusals;
