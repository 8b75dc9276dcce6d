//! The spreadsheet commands on the columns of a table.
//!
//! Start at `specs/Plans.antt`: of the columns alone each command makes a layout, which says for every column of the
//! result where its values come from, or an error. `specs/Changes.antt` says what becomes of a table under a layout, and
//! `specs/Formula.antt` what `formula` computes; `laws.rt` says what holds of marks. The commands on rows, and the cell
//! that reads a dataset and calls these, are not here.
#![tactic(auto)]

mod commands;
mod computing;
mod filling;
mod laws;
mod layout;
mod plans;
mod result;
#[cfg(test)]
mod tests;
#[cfg(test)]
mod tests_formula;
#[cfg(test)]
mod tests_limits;
#[cfg(test)]
mod tests_order;

pub use commands::{delete_column, insert_column, keep_columns, move_column, rename_column};
pub use computing::formula;
pub use laws::{
    law_of_deletion, law_of_formula, law_of_insertion, law_of_keeping, law_of_moving,
    law_of_renaming,
};
