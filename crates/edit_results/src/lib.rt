//! What the spreadsheet commands on columns and on rows have in common: how a result becomes a dataset.
//!
//! Start at `whole_table`, and read `specs/Results.antt` for the rules and limits of a result. What the commands make of a dataset is
//! not here.
#![tactic(auto)]

mod results;
#[cfg(test)]
mod tests;
mod widening;

pub use results::whole_table;
pub use widening::as_fixed;
