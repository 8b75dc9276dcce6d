//! The spreadsheet commands.
use crate::distinct_names::DistinctNames;
use crate::sort_names::SortNames;
use value_types::{ColumnType, Name, Value, Words};

/// What a spreadsheet cell does to its dataset.
///
/// - Unit: `at` is a place among the columns, counted from 1.
/// - Shape: a row is named by the text of its id; `after` is none where the row comes first.
/// - Source: docs/FORMATS.md, "Spreadsheet commands".
#[derive(Drop)]
pub enum Command {
    InsertColumn {
        dataset: Name,
        name: Name,
        kind: ColumnType,
        at: u32,
    },
    DeleteColumn {
        dataset: Name,
        name: Name,
    },
    RenameColumn {
        dataset: Name,
        name: Name,
        to: Name,
    },
    MoveColumn {
        dataset: Name,
        name: Name,
        at: u32,
    },
    KeepColumns {
        dataset: Name,
        names: DistinctNames,
    },
    /// The new row's id is its name.
    InsertRow {
        dataset: Name,
        row: Name,
        after: Option<Words>,
    },
    DeleteRow {
        dataset: Name,
        row: Words,
    },
    MoveRow {
        dataset: Name,
        row: Words,
        after: Option<Words>,
    },
    SetValue {
        dataset: Name,
        row: Words,
        column: Name,
        value: Value,
    },
    /// The text is that of an expression.
    Formula {
        dataset: Name,
        column: Name,
        text: Words,
    },
    Sort {
        dataset: Name,
        by: SortNames,
    },
    RenameDataset {
        dataset: Name,
        to: Name,
    },
    CopyDataset {
        dataset: Name,
        to: Name,
    },
    DropDataset {
        dataset: Name,
    },
}
