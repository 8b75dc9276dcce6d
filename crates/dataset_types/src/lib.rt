//! Datasets: tables with their marks, the slots that names hold, environments, and picks at caveated places.
//!
//! Start at `Table`, whose type keeps the rules and limits of a dataset, and at `Env`, which gives each
//! name its slot. What a cell makes of them is not here, but in `cell_model`.
#![tactic(auto)]

mod column;
mod env;
mod fitting;
mod laws;
mod limits;
mod load_options;
mod picks;
mod row;
mod rules;
mod slot;
mod table;
#[cfg(test)]
mod tests;

pub use column::{Column, Columns};
pub use env::Env;
pub use fitting::fitted;
pub use laws::{law_of_numbers, law_of_order, law_of_reading};
pub use limits::{few_bytes, few_columns, few_rows, few_values, ids_short, row_size, text_bytes};
pub use load_options::{Repair, Types};
pub use picks::{Choice, Pick, Picks, Site};
pub use row::{Marked, MarkedValues, Row, Rows};
pub use rules::{all_sure, names_distinct, rows_fit};
pub use slot::{Named, Slot, Slots, slot_same};
pub use table::{Table, TableFault, table_same};
