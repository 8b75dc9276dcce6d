//! `set_value`.
ghost use Rattle.std.specs.Prelude.{◌≡◌, ◌<◌, IfOk, OnOk, length, slice_set};
ghost use Rattle.cell_errors.specs.Answers.{Gives};
ghost use Rattle.row_edits.specs.ByText.{changed_at};
ghost use Rattle.row_edits.specs.Set.{with_value, value_set};
ghost use Rattle.row_edits.specs.Staying as stay;
ghost use Rattle.row_edits.specs.Ids.{row_id};

use crate::by_text::{is_text, is_there};
use crate::columns::{find_column, value_for};
use cell_errors::{CellError, EvalFault};
use dataset_types::{Marked, MarkedValues, Row, Rows, Table};
use edit_results::whole_table;
use std::alloc::Global;
use value_types::{ArcOf, Name, NoMemory, Value, Words};

fn with_value(alloc: Global, at: usize, value: &Value, row: Row) -> Result<Row, NoMemory>
    ensures { IfOk result (λ r. r ≡ with_value at value.now row) }
{
    let Row { id, sure, values } = row;
    let mut values = values.into_vec();
    if at < values.len() {
        values[at] = Marked {
            value: value.copy(alloc)?,
            marked: false,
        };
    }
    let values = MarkedValues::from_vec(alloc, values)?;
    Ok(Row { id, sure, values })
}

fn with_value_in(
    alloc: Global,
    row: &Words,
    at: usize,
    value: &Value,
    rows: Rows,
) -> Result<Rows, NoMemory>
    ensures { IfOk result (λ all. all ≡ changed_at row_id row.now (with_value at value.now) rows) }
{
    let mut all = Rows::new(alloc)?;
    for one in rows.into_vec() {
        let is_it = is_text(alloc, row, &one.id)?;
        let one = if is_it {
            with_value(alloc, at, value, one)?
        } else {
            one
        };
        all.push(alloc, one)?;
    }
    Ok(all)
}

fn has_value(at: usize, value: &Value, row: &Row) -> bool
    ensures { result ≡ stay.has_value at value.now row.now }
{
    match row.values.as_slice().get(at) {
        Some(own) => own.value == *value && !own.marked,
        None => true,
    }
}

// Whether the value stands, unmarked, in each row of a text.
fn stands(
    alloc: Global,
    row: &Words,
    at: usize,
    value: &Value,
    rows: &[Row],
) -> Result<bool, NoMemory>
    ensures { IfOk result (λ b. b ≡ stay.stands row.now at value.now rows.now) }
{
    for one in rows {
        if is_text(alloc, row, &one.id)? && !has_value(at, value, one) {
            return Ok(false);
        }
    }
    Ok(true)
}

/// A dataset with another value, unmarked, in a row's column.
///
/// - Shape: the row is given by its id's text. An Int goes into a Fixed column as its widening. Where the value stands there unmarked,
///   the dataset is the same one, shared once more.
/// - Error: `NoColumn`, then `NoRow`, then `TypeFault` where the value doesn't fit the column, or `Overflow` where an Int doesn't widen,
///   then `TooLarge`.
/// - Source: docs/EDITING.md.
pub fn set_value(
    alloc: Global,
    table: &ArcOf<Table>,
    row: &Words,
    column: &Name,
    value: &Value,
) -> Result<ArcOf<Table>, EvalFault>
    ensures { Gives result (value_set table.now row.now column.now value.now) }
{
    let own = table.get();
    own.law_of_rules();
    let found = find_column(own.columns().as_slice(), column)?;
    if !is_there(alloc, row, own.rows().as_slice())? {
        return Err(EvalFault::Error(CellError::NoRow));
    }
    let value = value_for(found.kind, value.copy(alloc)?)?;
    if stands(alloc, row, found.place, &value, own.rows().as_slice())? {
        return Ok(table.copy(alloc)?);
    }
    let rows = with_value_in(alloc, row, found.place, &value, own.rows().copy(alloc)?)?;
    let columns = own.columns().copy(alloc)?;
    whole_table(alloc, columns, rows, own.is_open(), own.is_loose())
}
