//! Make cells: a heading of columns, rows that fit it, and the table of both.
ghost use Rattle.std.specs.Prelude.{◌≡◌, ◌≤◌, IfOk, IfSome, IsTrue, length};
ghost use Rattle.dataset_types.specs.Tables.{Distinct, column_names, names_apart, row_ids, rows_fit, all_sure};
ghost use Rattle.serde_json.specs.View.{view, items_view};
ghost use Rattle.edit_wire.specs.Make as spec;

use cell_model::CellKind;
use dataset_types::{
    Column, Columns, Marked, MarkedValues, Row, Rows, Table, TableFault, few_columns, few_rows,
    names_distinct,
};
use json_fields::{all_of, field, has_members, list_field, value_for};
use serde_json::Value as Json;
use std::alloc::Global;
use value_types::{ArcOf, ListOf, NoMemory, RowId};

fn names_apart(columns: &[Column]) -> bool
    ensures { result ≡ names_apart columns.now }
{
    names_distinct(columns)
}

fn is_heading(columns: &[Column]) -> bool
    ensures { result ≡ spec.is_heading columns.now }
{
    1 <= columns.len() && few_columns(columns.len()) && names_apart(columns)
}

/// The columns of a list, where they are 1 to 32 of distinct names.
#[tactic(auto, using(crate::proofs::Made::distinct))]
fn heading_of(alloc: Global, list: &[Json]) -> Result<Option<Columns>, NoMemory>
    ensures names { IfOk result (λ found. IfSome found (λ cs. Distinct (column_names cs))) }
    ensures value { IfOk result (λ found. found ≡ spec.heading_of (items_view list.now)) }
{
    match all_of(alloc, list)? {
        Some(columns) if is_heading(columns.as_slice()) => {
            Ok(Some(ListOf::from_vec(alloc, columns)?))
        }
        _ => Ok(None),
    }
}

/// One value a column, each fitted to its type.
fn values_of(
    alloc: Global,
    columns: &[Column],
    list: &[Json],
) -> Result<Option<MarkedValues>, NoMemory>
    ensures { IfOk result (λ found. found ≡ spec.values_of columns.now (items_view list.now)) }
{
    let mut found = ListOf::new(alloc)?;
    let mut rest = list;
    for column in columns {
        let Some((json, more)) = rest.split_first() else {
            return Ok(None);
        };
        let Some(value) = value_for(alloc, column.kind, json)? else {
            return Ok(None);
        };
        found.push(
            alloc,
            Marked {
                value,
                marked: false,
            },
        )?;
        rest = more;
    }
    if rest.len() > 0 {
        return Ok(None);
    }
    Ok(Some(found))
}

fn row_of(
    alloc: Global,
    columns: &[Column],
    number: u32,
    json: &Json,
) -> Result<Option<Row>, NoMemory>
    ensures { IfOk result (λ found. found ≡ spec.row_of columns.now number (view json.now)) }
{
    let Some(list) = json.as_array() else {
        return Ok(None);
    };
    match values_of(alloc, columns, list)? {
        Some(values) => Ok(Some(Row {
            id: RowId::Rec(number),
            sure: true,
            values,
        })),
        None => Ok(None),
    }
}

/// The rows of a list, numbered from 1 on.
fn rows_of(alloc: Global, columns: &[Column], list: &[Json]) -> Result<Option<Rows>, NoMemory>
    requires { length list.now ≤ 65536 }
    ensures { IfOk result (λ found. found ≡ spec.rows_from columns.now 1 (items_view list.now)) }
{
    let mut found = ListOf::new(alloc)?;
    let mut number: u32 = 1;
    for json in list {
        match row_of(alloc, columns, number, json)? {
            Some(row) => found.push(alloc, row)?,
            None => return Ok(None),
        }
        number += 1;
    }
    Ok(Some(found))
}

/// The closed table of a heading and its rows, where it is within the limits.
fn limited(alloc: Global, columns: Columns, rows: Rows) -> Result<Option<Table>, NoMemory>
    requires names { Distinct (column_names columns) }
    requires ids { Distinct (row_ids rows) }
    requires fitting { IsTrue (rows_fit columns rows) }
    requires sure { IsTrue (all_sure rows) }
    ensures { IfOk result (λ found. found ≡ spec.limited columns rows) }
{
    match Table::new(alloc, columns, rows, false, false) {
        Ok(table) => Ok(Some(table)),
        Err(TableFault::TooLarge) => Ok(None),
        Err(TableFault::NoMemory) => Err(NoMemory),
    }
}

/// The table of a list of columns and a list of rows.
fn table_from(alloc: Global, heads: &[Json], list: &[Json]) -> Result<Option<Table>, NoMemory>
    ensures { IfOk result (λ found.
        found ≡ spec.table_from (items_view heads.now) (items_view list.now)) }
{
    if !few_rows(list.len()) {
        return Ok(None);
    }
    let Some(columns) = heading_of(alloc, heads)? else {
        return Ok(None);
    };
    let Some(rows) = rows_of(alloc, columns.as_slice(), list)? else {
        return Ok(None);
    };
    limited(alloc, columns, rows)
}

fn table_in(alloc: Global, json: &Json) -> Result<Option<Table>, NoMemory>
    ensures { IfOk result (λ found. found ≡ spec.table_in (view json.now)) }
{
    let Some(heads) = list_field(json, "columns") else {
        return Ok(None);
    };
    let Some(list) = list_field(json, "rows") else {
        return Ok(None);
    };
    table_from(alloc, heads, list)
}

/// The make cell that an object is.
///
/// - Source: docs/FORMATS.md, "Edit lines".
#[tactic(auto, unfolding(crate::specs::Make::make_of))]
pub fn make_of(alloc: Global, json: &Json) -> Result<Option<CellKind>, NoMemory>
    ensures { IfOk result (λ found. found ≡ spec.make_of (view json.now)) }
{
    if !has_members(json, 3) {
        return Ok(None);
    }
    let Some(name) = field(alloc, json, "make")? else {
        return Ok(None);
    };
    let Some(table) = table_in(alloc, json)? else {
        return Ok(None);
    };
    Ok(Some(CellKind::Make {
        name,
        table: ArcOf::new(alloc, table)?,
    }))
}
