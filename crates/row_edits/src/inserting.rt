//! `insert_row`.
ghost use Rattle.std.specs.Prelude.{◌≡◌, IfOk};
ghost use Rattle.cell_errors.specs.Answers.{Gives};
ghost use Rattle.row_edits.specs.ByText as spec;
ghost use Rattle.row_edits.specs.Rows.{inserted};
ghost use Rattle.row_edits.specs.Insert.{null_row, row_inserted};
ghost use Rattle.row_edits.specs.Ids.{row_id};

use crate::by_text::{is_place, is_unsure, put_after};
use cell_errors::{CellError, EvalFault};
use dataset_types::{Column, Marked, MarkedValues, Row, Rows, Table};
use edit_results::whole_table;
use std::alloc::Global;
use value_types::{ArcOf, Name, NoMemory, RowId, Value, Words};

fn null_row(alloc: Global, name: &Name, columns: &[Column]) -> Result<Row, NoMemory>
    ensures { IfOk result (λ r. r ≡ null_row name.now columns.now) }
{
    let mut values = MarkedValues::new(alloc)?;
    for _column in columns {
        let null = Marked {
            value: Value::Null,
            marked: false,
        };
        values.push(alloc, null)?;
    }
    Ok(Row {
        id: RowId::Named(name.copy()),
        sure: true,
        values,
    })
}

fn is_taken(id: &RowId, rows: &[Row]) -> bool
    ensures { result ≡ spec.is_taken row_id id.now rows.now }
{
    rows.iter().any(|row| row.id == *id)
}

fn inserted(alloc: Global, new: Row, after: &Option<Words>, rows: &Rows) -> Result<Rows, EvalFault>
    ensures { Gives result (inserted row_id new after.now rows.now) }
{
    if !is_place(alloc, after, rows.as_slice())? {
        return Err(EvalFault::Error(CellError::NoRow));
    }
    if is_taken(&new.id, rows.as_slice()) {
        return Err(EvalFault::Error(CellError::RowTaken));
    }
    let mut more = Rows::new(alloc)?;
    more.push(alloc, new)?;
    Ok(put_after(alloc, after, more, rows.copy(alloc)?)?)
}

/// A dataset with a new row of unmarked NULLs after a row, or first.
///
/// - Shape: the row after which it comes is given by its id's text; the new row's id is its name.
/// - Marks: the new row is sure; after an unsure row the order of rows is uncertain.
/// - Error: `NoRow` where the row after which it comes isn't there, then `RowTaken` where a row has the new id, then `TooLarge`.
/// - Source: docs/EDITING.md.
pub fn insert_row(
    alloc: Global,
    table: &Table,
    row: &Name,
    after: &Option<Words>,
) -> Result<ArcOf<Table>, EvalFault>
    ensures { Gives result (row_inserted table.now row.now after.now) }
{
    table.law_of_rules();
    let new = null_row(alloc, row, table.columns().as_slice())?;
    let rows = inserted(alloc, new, after, table.rows())?;
    let is_loose = table.is_loose() | is_unsure(alloc, after, table.rows().as_slice())?;
    whole_table(
        alloc,
        table.columns().copy(alloc)?,
        rows,
        table.is_open(),
        is_loose,
    )
}
