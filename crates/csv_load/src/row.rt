//! The rows of records.
ghost use Rattle.std.specs.Prelude.{◌≡◌, ◌≤◌, length, IfOk};
ghost use Rattle.csv.specs.Records.{fields_of};
ghost use Rattle.csv_load.specs.Fields.{marked_value};
ghost use Rattle.csv_load.specs.Rows as spec;
ghost use Rattle.csv_load.specs.Reading.{IsReading, left_of};
ghost use Rattle.csv_load.specs.Calls.{GivesBody, AddsRow, repairs_of, has_room};

use crate::field::Repairs;
use crate::record::{field_of, read_next};
use cell_errors::{CellError, EvalFault};
use csv::{ByteRecord, Reader};
use dataset_types::{Column, MarkedValues, Row, Rows, Site, few_rows, few_values};
use std::alloc::Global;
use std::io::Read;
use value_types::{ListOf, NoMemory, RowId};

/// Rows, and whether one of the records is surplus.
#[derive(Drop)]
pub(crate) struct Body {
    pub(crate) rows: Rows,
    pub(crate) is_open: bool,
}

fn values_of(
    alloc: Global,
    repairs: &Repairs<'_>,
    columns: &[Column],
    number: u32,
    fields: &ByteRecord,
) -> Result<MarkedValues, NoMemory>
    requires { length columns.now ≤ 32 }
    ensures { IfOk result (λ values. values
        ≡ spec.by_columns (marked_value (repairs_of repairs.now)) columns.now
        (number, fields_of fields.now)) }
{
    let mut values = Vec::with_capacity(alloc, columns.len())?;
    for (place, column) in columns.iter().enumerate() {
        let site = Site::Field {
            number,
            column: place as u32 + 1,
        };
        let value = repairs.marked_value(alloc, column.kind, site, field_of(fields, place))?;
        values.push(value)?;
    }
    ListOf::from_vec(alloc, values)
}

fn row_of(
    alloc: Global,
    repairs: &Repairs<'_>,
    columns: &[Column],
    number: u32,
    fields: &ByteRecord,
) -> Result<Row, NoMemory>
    requires { length columns.now ≤ 32 }
    ensures { IfOk result (λ row. row
        ≡ spec.row_of (repairs_of repairs.now) columns.now (number, fields_of fields.now)) }
{
    Ok(Row {
        id: RowId::Rec(number),
        sure: !is_surplus(columns.len(), fields),
        values: values_of(alloc, repairs, columns, number, fields)?,
    })
}

fn is_surplus(width: usize, fields: &ByteRecord) -> bool
    ensures { result ≡ spec.is_surplus width (fields_of fields.now) }
{
    width < fields.len()
}

fn has_row(repairs: &Repairs<'_>, width: usize, number: u32, fields: &ByteRecord) -> bool
    ensures { result ≡ spec.has_row (repairs_of repairs.now) width (number, fields_of fields.now) }
{
    !is_surplus(width, fields) || !repairs.drops(number)
}

/// Whether a table of so many columns that is within the limits may have a row more.
fn has_room(rows: &[Row], width: usize) -> bool
    ensures { result ≡ has_room (length rows.now) width }
{
    few_rows(rows.len() + 1) && few_values(rows.len() + 1, width)
}

/// Adds the row of a record, if it has one, while there is room.
fn add_row(
    alloc: Global,
    rows: &mut Rows,
    repairs: &Repairs<'_>,
    columns: &[Column],
    number: u32,
    fields: &ByteRecord,
) -> Result<(), EvalFault>
    requires { length columns.now ≤ 32 }
    ensures { AddsRow (repairs_of repairs.now) columns.now (number, fields_of fields.now)
        rows.old rows.new result }
{
    if !has_row(repairs, columns.len(), number, fields) {
        return Ok(());
    }
    if !has_room(rows.as_slice(), columns.len()) {
        return Err(EvalFault::Error(CellError::TooLarge));
    }
    let row = row_of(alloc, repairs, columns, number, fields)?;
    rows.push(alloc, row)?;
    Ok(())
}

/// The rows of the records that a reader has left, or why there is no table of them.
pub(crate) fn rows_of<R: Read>(
    alloc: Global,
    reader: &mut Reader<R>,
    repairs: &Repairs<'_>,
    columns: &[Column],
) -> Result<Body, EvalFault>
    requires reading { IsReading R.remaining reader.old }
    requires narrow { length columns.now ≤ 32 }
    ensures { GivesBody (repairs_of repairs.now) columns.now
        (left_of R.remaining reader.old) result }
{
    let mut rows = Rows::new(alloc)?;
    let mut is_open = false;
    let mut number: u32 = 0;
    let mut fields = ByteRecord::new(alloc);
    while read_next(reader, &mut fields)? {
        if number == u32::MAX {
            return Err(EvalFault::Error(CellError::TooLarge));
        }
        number += 1;
        is_open |= is_surplus(columns.len(), &fields);
        add_row(alloc, &mut rows, repairs, columns, number, &fields)?;
    }
    Ok(Body { rows, is_open })
}
