//! `move_row`.
ghost use Rattle.std.specs.Prelude.{◌≡◌, true, false, IfOk};
ghost use Rattle.cell_errors.specs.Answers.{Gives};
ghost use Rattle.row_edits.specs.Rows as spec;
ghost use Rattle.row_edits.specs.Move as move;
ghost use Rattle.row_edits.specs.Staying as stay;
ghost use Rattle.row_edits.specs.Ids.{row_id};

use crate::by_text::{is_place, is_there, is_unsure, place_of, put_after, take_out, up_to};
use cell_errors::{CellError, EvalFault};
use dataset_types::{Row, Rows, Table};
use edit_results::whole_table;
use std::alloc::Global;
use value_types::{ArcOf, NoMemory, Words};

fn is_itself(row: &Words, after: &Option<Words>) -> bool
    ensures { result ≡ spec.is_itself row.now after.now }
{
    match after {
        None => false,
        Some(text) => row.as_text() == text.as_text(),
    }
}

fn put(alloc: Global, row: &Words, after: &Option<Words>, rows: Rows) -> Result<Rows, NoMemory>
    requires { spec.is_itself row.now after.now ≡ false }
    ensures { IfOk result (λ all. all ≡ spec.put row_id row.now after.now rows) }
{
    let out = take_out(alloc, row, rows)?;
    put_after(alloc, after, out.taken, out.others)
}

fn are_there(
    alloc: Global,
    row: &Words,
    after: &Option<Words>,
    rows: &[Row],
) -> Result<bool, NoMemory>
    ensures { IfOk result (λ b. b ≡ spec.are_there row_id row.now after.now rows.now) }
{
    Ok(is_there(alloc, row, rows)? && is_place(alloc, after, rows)?)
}

fn follows_unsure(
    alloc: Global,
    row: &Words,
    after: &Option<Words>,
    rows: &[Row],
) -> Result<bool, NoMemory>
    ensures { IfOk result (λ b. b ≡ move.follows_unsure row.now after.now rows.now) }
{
    Ok(!is_itself(row, after) && is_unsure(alloc, after, rows)?)
}

// Where both rows are there, and the move doesn't leave the dataset as it is.
fn moved_table(
    alloc: Global,
    table: &Table,
    row: &Words,
    after: &Option<Words>,
) -> Result<ArcOf<Table>, EvalFault>
    requires there { spec.are_there row_id row.now after.now table.now.rows ≡ true }
    requires apart { spec.is_itself row.now after.now ≡ false }
    ensures { Gives result (move.row_moved table.now row.now after.now) }
{
    table.law_of_rules();
    let rows = put(alloc, row, after, table.rows().copy(alloc)?)?;
    let is_loose = table.is_loose() | follows_unsure(alloc, row, after, table.rows().as_slice())?;
    whole_table(
        alloc,
        table.columns().copy(alloc)?,
        rows,
        table.is_open(),
        is_loose,
    )
}

fn is_in_place(
    alloc: Global,
    row: &Words,
    after: &Option<Words>,
    rows: &[Row],
) -> Result<bool, NoMemory>
    ensures { IfOk result (λ b. b ≡ stay.is_in_place row_id row.now after.now rows.now) }
{
    Ok(is_itself(row, after) || up_to(alloc, row, rows)? == place_of(alloc, after, rows)? + 1)
}

// Whether the move leaves the dataset as it is, where both rows are there.
fn stays(alloc: Global, row: &Words, after: &Option<Words>, table: &Table) -> Result<bool, NoMemory>
    ensures { IfOk result (λ b. b ≡ stay.stays table.now row.now after.now) }
{
    let rows = table.rows().as_slice();
    Ok(
        is_in_place(alloc, row, after, rows)?
            && (table.is_loose() || !follows_unsure(alloc, row, after, rows)?),
    )
}

/// A dataset with a row put after another, or first. A row that is put after itself stays where it is.
///
/// - Shape: rows are given by their ids' texts. Where nothing changes, the dataset is the same one, shared once more.
/// - Marks: after another row that is unsure the order of rows is uncertain.
/// - Error: `NoRow` where either row isn't there.
/// - Source: docs/EDITING.md.
pub fn move_row(
    alloc: Global,
    table: &ArcOf<Table>,
    row: &Words,
    after: &Option<Words>,
) -> Result<ArcOf<Table>, EvalFault>
    ensures { Gives result (move.row_moved table.now row.now after.now) }
{
    let own = table.get();
    own.law_of_rules();
    if !are_there(alloc, row, after, own.rows().as_slice())? {
        return Err(EvalFault::Error(CellError::NoRow));
    }
    if stays(alloc, row, after, own)? {
        return Ok(table.copy(alloc)?);
    }
    moved_table(alloc, own, row, after)
}
