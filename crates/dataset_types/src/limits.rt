//! The limits of a dataset, each where it is looked at: for a whole table, or early by what makes one.
ghost use Rattle.std.specs.Prelude.{◌≡◌, ◌-◌, ◌^◌, min};
ghost use Rattle.dataset_types.specs.Tables as spec;
ghost use Rattle.dataset_types.specs.Tables.{text_size, row_size, text_bytes, ids_short};

use crate::row::Row;
use value_types::{Value, id_parts, id_weight};

/// Whether there are at most 32 columns.
pub fn few_columns(columns: usize) -> bool
    ensures { result ≡ spec.few_columns columns }
{
    columns <= 32
}

/// Whether there are at most 65,536 rows.
pub fn few_rows(rows: usize) -> bool
    ensures { result ≡ spec.few_rows rows }
{
    rows <= 65_536
}

/// Whether so many rows of so many values have at most 65,536 values.
pub fn few_values(rows: usize, width: usize) -> bool
    ensures { result ≡ spec.few_values rows width }
{
    (rows as u128) * (width as u128) <= 65_536
}

/// Whether there are at most 1,048,576 bytes of text.
pub fn few_bytes(bytes: u64) -> bool
    ensures { result ≡ spec.few_bytes bytes }
{
    bytes <= 1_048_576
}

fn text_size(value: &Value) -> u64
    ensures { result ≡ text_size value.now }
{
    match value {
        Value::Text(text) => text.len() as u64,
        _ => 0,
    }
}

/// The bytes of text in a row, its id's among them, or the last value of u64 where there are more.
pub fn row_size(row: &Row) -> u64
    ensures { result ≡ min (row_size row.now) (2 ^ 64 - 1) }
{
    let mut size = id_weight(&row.id);
    for marked in row.values.as_slice() {
        size = size.saturating_add(text_size(&marked.value));
    }
    size
}

/// The bytes of text in these rows, or the last value of u64 where there are more.
pub fn text_bytes(rows: &[Row]) -> u64
    ensures { result ≡ min (text_bytes rows.now) (2 ^ 64 - 1) }
{
    let mut size: u64 = 0;
    for row in rows {
        size = size.saturating_add(row_size(row));
    }
    size
}

/// Whether each row's id has at most 8 parts.
pub fn ids_short(rows: &[Row]) -> bool
    ensures { result ≡ ids_short rows.now }
{
    rows.iter().all(|row| id_parts(&row.id) <= 8)
}
