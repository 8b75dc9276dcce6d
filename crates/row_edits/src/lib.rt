//! The spreadsheet commands on the rows of a dataset.
//!
//! Start at `insert_row`, `delete_row`, `move_row`, `set_value` and `sort`, and read the file of the same command in `specs/`: each
//! says what the command gives with marks, what it gives without them, and what it makes of what is shown. `laws.rt` says how the
//! three belong together. Commands on columns are not here, and neither are the cells that hold a command.
#![tactic(auto)]

mod by_text;
mod columns;
mod deleting;
mod inserting;
mod laws;
mod moving;
mod setting;
mod sorting;
#[cfg(test)]
mod tests;
#[cfg(test)]
mod tests_ids;
#[cfg(test)]
mod tests_limits;
#[cfg(test)]
mod tests_places;
#[cfg(test)]
mod tests_sorting;

pub use deleting::delete_row;
pub use inserting::insert_row;
pub use laws::{
    law_of_delete_row, law_of_insert_row, law_of_move_row, law_of_set_value, law_of_sort,
};
pub use moving::move_row;
pub use setting::set_value;
pub use sorting::sort;
