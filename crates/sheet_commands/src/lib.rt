//! The spreadsheet commands: what each names, as a tree.
//!
//! Start at `Command`. What a command makes of a dataset is not here, and neither is its form in an edit
//! line, which is in `sheet_json`.
#![tactic(auto)]

mod command;
mod copy;
mod distinct_names;
mod sort_names;
#[cfg(test)]
mod tests;

pub use command::Command;
pub use distinct_names::DistinctNames;
pub use sort_names::{SortName, SortNames};
