//! `delete_row`.
ghost use Rattle.cell_errors.specs.Answers.{Gives};
ghost use Rattle.row_edits.specs.Rows.{deleted};
ghost use Rattle.row_edits.specs.Delete.{row_deleted};
ghost use Rattle.row_edits.specs.Ids.{row_id};

use crate::by_text::{is_there, take_out};
use cell_errors::{CellError, EvalFault};
use dataset_types::{Rows, Table};
use edit_results::whole_table;
use std::alloc::Global;
use value_types::{ArcOf, Words};

fn deleted(alloc: Global, row: &Words, rows: &Rows) -> Result<Rows, EvalFault>
    ensures { Gives result (deleted row_id row.now rows.now) }
{
    if !is_there(alloc, row, rows.as_slice())? {
        return Err(EvalFault::Error(CellError::NoRow));
    }
    Ok(take_out(alloc, row, rows.copy(alloc)?)?.others)
}

/// A dataset without a row.
///
/// - Shape: the row is given by its id's text.
/// - Marks: an open dataset stays open, also where its last unsure row goes.
/// - Error: `NoRow` where the row isn't there.
/// - Source: docs/EDITING.md.
pub fn delete_row(alloc: Global, table: &Table, row: &Words) -> Result<ArcOf<Table>, EvalFault>
    ensures { Gives result (row_deleted table.now row.now) }
{
    table.law_of_rules();
    let rows = deleted(alloc, row, table.rows())?;
    let columns = table.columns().copy(alloc)?;
    whole_table(alloc, columns, rows, table.is_open(), table.is_loose())
}
