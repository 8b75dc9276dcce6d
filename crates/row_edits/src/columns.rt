//! Columns by their names, and values as those of a column.
ghost use Rattle.std.specs.Prelude.{◌≡◌, ◌≤◌, ◌<◌, IfOk, length};
ghost use Rattle.cell_errors.specs.Answers.{Gives};
ghost use Rattle.row_edits.specs.Columns as spec;

use cell_errors::CellError;
use dataset_types::{Column, fitted};
use edit_results::as_fixed;
use value_types::{ColumnType, Name, Value};

/// A column of a dataset.
#[derive(Clone, Copy)]
pub struct Found {
    /// Its place, counted from 0.
    pub place: usize,
    pub kind: ColumnType,
}

/// The column of a name.
pub(crate) fn find_column(columns: &[Column], name: &Name) -> Result<Found, CellError>
    ensures value { result ≡ spec.find_column columns.now name.now }
    ensures within { IfOk result (λ found. found.place < length columns.now) }
{
    for i in 0..columns.len() {
        if columns[i].name.same(name) {
            return Ok(Found {
                place: i,
                kind: columns[i].kind,
            });
        }
    }
    Err(CellError::NoColumn)
}

/// A value as one of a type: an Int is widened into Fixed, and any other is as it is where it fits.
pub(crate) fn value_for(kind: ColumnType, value: Value) -> Result<Value, CellError>
    ensures { result ≡ spec.value_for kind value }
{
    match (kind, value) {
        (ColumnType::Fixed, Value::Int(n)) => as_fixed(n),
        (kind, value) => fitted(kind, value).ok_or(CellError::TypeFault),
    }
}
