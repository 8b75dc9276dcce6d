//! Tables with new values in a column.
ghost use Rattle.std.specs.Prelude.{◌≡◌, IfOk, length};
ghost use Rattle.cell_errors.specs.Answers.{Gives};
ghost use Rattle.edit_results.specs.Results.{KeepsRules, whole};
ghost use Rattle.column_edits.specs.Formula as formula;
ghost use Rattle.column_edits.specs.Filling as spec;
ghost use Rattle.column_edits.specs.Filling.{filled};

use crate::layout::{LaidColumn, Layout, as_they_stand, laid_row};
use crate::plans::has_name;
use cell_errors::EvalFault;
use dataset_types::{Column, Marked, Row, Rows, Table};
use edit_results::whole_table;
use std::alloc::Global;
use value_types::{ArcOf, Name, NoMemory};

fn emptied(laid: LaidColumn) -> LaidColumn
    ensures { result ≡ formula.emptied laid }
{
    LaidColumn {
        column: laid.column,
        source: None,
    }
}

fn emptied_at(alloc: Global, name: &Name, layout: Layout) -> Result<Layout, NoMemory>
    ensures { IfOk result (λ l. l ≡ formula.emptied_at name.now layout) }
{
    let mut all = Layout::new(alloc)?;
    for laid in layout.into_vec() {
        let column = if has_name(name, &laid) {
            emptied(laid)
        } else {
            laid
        };
        all.push(alloc, column)?;
    }
    Ok(all)
}

fn refilled(alloc: Global, name: &Name, columns: &[Column]) -> Result<Layout, NoMemory>
    ensures { IfOk result (λ l. l ≡ formula.refilled name.now columns.now) }
{
    let layout = as_they_stand(alloc, columns)?;
    emptied_at(alloc, name, layout)
}

/// Whether each column without a source has this value at its place already.
fn stay(layout: &[LaidColumn], new: &Marked, values: &[Marked]) -> bool
    ensures { result ≡ spec.stay layout.now new.now values.now }
{
    layout
        .iter()
        .zip(values)
        .all(|(laid, value)| laid.source.is_some() || value == new)
}

fn all_stay(layout: &[LaidColumn], new: &[Marked], rows: &[Row]) -> bool
    ensures { result ≡ spec.all_stay layout.now new.now rows.now }
{
    new.iter()
        .zip(rows)
        .all(|(new, row)| stay(layout, new, row.values.as_slice()))
}

fn refilled_rows(
    alloc: Global,
    layout: &[LaidColumn],
    new: &[Marked],
    rows: &[Row],
) -> Result<Rows, NoMemory>
    requires { length new.now ≡ length rows.now }
    ensures { IfOk result (λ r. r ≡ spec.refilled_rows layout.now new.now rows.now) }
{
    let mut all = Rows::new(alloc)?;
    for i in 0..rows.len() {
        let row = laid_row(alloc, layout, &new[i], &rows[i])?;
        all.push(alloc, row)?;
    }
    Ok(all)
}

/// A shared table with a new value for each row in the column of a name: the same one, shared once more, where each row has its value
/// already.
pub(crate) fn filled_shared(
    alloc: Global,
    table: &ArcOf<Table>,
    column: &Name,
    new: &[Marked],
) -> Result<ArcOf<Table>, EvalFault>
    requires long { length new.now ≡ length table.now.rows }
    requires rules { KeepsRules (filled column.now new.now table.now) }
    ensures { Gives result (whole (filled column.now new.now table.now)) }
{
    let own = table.get();
    own.law_of_rules();
    let rows = own.rows().as_slice();
    let layout = refilled(alloc, column, own.columns().as_slice())?;
    if all_stay(layout.as_slice(), new, rows) {
        return Ok(table.copy(alloc)?);
    }
    let rows = refilled_rows(alloc, layout.as_slice(), new, rows)?;
    let columns = own.columns().copy(alloc)?;
    whole_table(alloc, columns, rows, own.is_open(), own.is_loose())
}
