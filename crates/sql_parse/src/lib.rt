//! The SELECT that a text is, and the datasets that it names.
//!
//! Start at `parse_select`, whose tree is `Select`. A tree is built from the steps of its text's
//! derivation as that of an expression is: `expr_parse` puts down what tokens say and builds the
//! expressions, and `act` makes the parts of a SELECT, one equation an action in `specs/Pieces.antt`.
//! What a SELECT means is not here.
#![tactic(auto)]

mod act;
mod columns;
mod copy;
mod cores;
mod names;
mod parse;
mod piece;
mod pops;
mod select;
mod tables;
#[cfg(test)]
mod tests;

pub use columns::{ColumnName, ColumnNames, OrderKey, OrderKeys};
pub use cores::{Core, CoreItems, Cores, ItemText, ItemTexts};
pub use expr_parse::ParseFault;
pub use names::names_of;
pub use parse::parse_select;
pub use select::Select;
pub use tables::{JoinPart, Joins, TableRef};
