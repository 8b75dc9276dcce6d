//! Tests of the rules that the parts of a table have to keep.
ghost use Rattle.std.specs.Prelude.{◌≡◌, ◌↔◌, length, IsTrue};
ghost use Rattle.dataset_types.specs.Tables.{Distinct, column_names, is_named, names_apart};
ghost use Rattle.dataset_types.specs.Tables.{fits, values_fit, row_fits, rows_fit, all_sure};

use crate::column::Column;
use crate::row::{Marked, Row};
use value_types::{ColumnType, Name, Value};

fn is_listed(columns: &[Column], name: &Name) -> bool
    ensures { result ≡ is_named name.now columns.now }
{
    columns.iter().any(|column| name.same(&column.name))
}

fn names_apart(columns: &[Column]) -> bool
    ensures { result ≡ names_apart columns.now }
{
    for (i, column) in columns.iter().enumerate() {
        if is_listed(&columns[i + 1..], &column.name) {
            return false;
        }
    }
    true
}

/// Whether no two columns have one name. It takes time in the square of their number.
#[tactic(auto, using(crate::proofs::RuleLemmas::names_decide))]
pub fn names_distinct(columns: &[Column]) -> bool
    ensures { IsTrue result ↔ Distinct (column_names columns.now) }
{
    names_apart(columns)
}

fn fits(value: &Value, kind: ColumnType) -> bool
    ensures { result ≡ fits value.now kind }
{
    match (value, kind) {
        (Value::Null, _)
        | (Value::Bool(_), ColumnType::Bool)
        | (Value::Int(_), ColumnType::Int)
        | (Value::Fixed(_), ColumnType::Fixed)
        | (Value::Text(_), ColumnType::Text) => true,
        _ => false,
    }
}

fn values_fit(columns: &[Column], values: &[Marked]) -> bool
    requires { length values.now ≡ length columns.now }
    ensures { result ≡ values_fit columns.now values.now }
{
    for (i, column) in columns.iter().enumerate() {
        if !fits(&values[i].value, column.kind) {
            return false;
        }
    }
    true
}

fn row_fits(columns: &[Column], row: &Row) -> bool
    ensures { result ≡ row_fits columns.now row.now }
{
    let values = row.values.as_slice();
    values.len() == columns.len() && values_fit(columns, values)
}

/// Whether each row has a value for each column, of the column's type or NULL.
pub fn rows_fit(columns: &[Column], rows: &[Row]) -> bool
    ensures { result ≡ rows_fit columns.now rows.now }
{
    rows.iter().all(|row| row_fits(columns, row))
}

/// Whether no row is unsure.
pub fn all_sure(rows: &[Row]) -> bool
    ensures { result ≡ all_sure rows.now }
{
    rows.iter().all(|row| row.sure)
}
