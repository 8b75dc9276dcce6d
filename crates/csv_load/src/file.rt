//! The load of a file.
ghost use Rattle.std.specs.Prelude.{◌≡◌, ◌≤◌, ◌<◌, ◌^◌, ◌∷◌, [], IfOk, MatchOption, length, map, zip};
ghost use Rattle.csv.specs.Records.{fields_of};
ghost use Rattle.dataset_types.specs.Tables.{Distinct, column_names};
ghost use Rattle.cell_errors.specs.Answers.{Gives};
ghost use Rattle.csv_load.specs.Guess as spec;
ghost use Rattle.csv_load.specs.Load.{records_of, table_in, limited, load_of};
ghost use Rattle.csv_load.specs.Reading.{IsReading, left_of};
ghost use Rattle.csv_load.specs.Calls.{IsPastHeader, repairs_of, column_named};

use crate::field::Repairs;
use crate::guess::kinds_of;
use crate::header::names_of;
use crate::record::{read_next, reader_of};
use crate::row::rows_of;
use cell_errors::{CellError, EvalFault};
use csv::{ByteRecord, Reader};
use dataset_types::{Column, Columns, Picks, Repair, Table, TableFault, Types, few_columns};
use std::alloc::Global;
use std::io::Read;
use value_types::{ColumnType, Name, NoMemory};

/// The reader of a file after its header, which is put where the caller has room for it.
fn past_header<'a>(
    alloc: Global,
    bytes: &'a [u8],
    header: &mut ByteRecord,
) -> Result<Option<Reader<&'a [u8]>>, NoMemory>
    ensures { IfOk result (IsPastHeader bytes.now (fields_of header.new)) }
{
    let mut reader = reader_of(alloc, bytes);
    if !read_next(&mut reader, header)? {
        return Ok(None);
    }
    Ok(Some(reader))
}

/// The columns of these names and types.
fn columns_named(alloc: Global, names: &[Name], kinds: &[ColumnType]) -> Result<Columns, NoMemory>
    requires { length names.now ≡ length kinds.now }
    ensures { IfOk result (λ columns. columns ≡ map column_named (zip names.now kinds.now)) }
{
    let mut columns = Columns::new(alloc)?;
    for (place, name) in names.iter().enumerate() {
        let column = Column {
            name: name.copy(),
            kind: kinds[place],
        };
        columns.push(alloc, column)?;
    }
    Ok(columns)
}

/// The columns of a header and of the records after it.
fn columns_of<R: Read>(
    alloc: Global,
    reader: &mut Reader<R>,
    header: &ByteRecord,
    types: &[Option<ColumnType>],
) -> Result<Columns, NoMemory>
    requires reading { IsReading R.remaining reader.old }
    requires few { length (left_of R.remaining reader.old) < 2 ^ 64 }
    requires narrow { length (fields_of header.now) ≤ 32 }
    ensures { IfOk result (λ columns. columns
        ≡ spec.columns_of types.now (fields_of header.now) (left_of R.remaining reader.old)) }
{
    let names = names_of(alloc, header)?;
    let kinds = kinds_of(alloc, reader, types, header.len())?;
    columns_named(alloc, names.as_slice(), kinds.as_slice())
}

/// The table of the records that a reader has left, under these columns.
fn table_of<R: Read>(
    alloc: Global,
    reader: &mut Reader<R>,
    repairs: &Repairs<'_>,
    columns: Columns,
) -> Result<Table, EvalFault>
    requires reading { IsReading R.remaining reader.old }
    requires narrow { length columns ≤ 32 }
    requires names { Distinct (column_names columns) }
    ensures { Gives result (limited (left_of R.remaining reader.old)
        (table_in (repairs_of repairs.now) columns (left_of R.remaining reader.old))) }
{
    let body = rows_of(alloc, reader, repairs, columns.as_slice())?;
    match Table::new(alloc, columns, body.rows, body.is_open, false) {
        Ok(table) => Ok(table),
        Err(TableFault::TooLarge) => Err(EvalFault::Error(CellError::TooLarge)),
        Err(TableFault::NoMemory) => Err(EvalFault::NoMemory),
    }
}

/// The table of a CSV file.
///
/// It reads the bytes twice, first for the types that are guessed and then for the values, and keeps
/// nothing of them but the table.
///
/// - Error: `NoHeader` exactly where the file has no record, `TooLarge` exactly where a limit of a dataset
///   is passed or the file has more than 4,294,967,295 records after its header.
/// - Source: docs/FORMATS.md, "Loaded files".
pub fn load(
    alloc: Global,
    bytes: &[u8],
    types: &Types,
    repair: Repair,
    picks: &Picks,
    cell: u32,
) -> Result<Table, EvalFault>
    ensures { Gives result (load_of bytes.now types.now repair picks.now cell) }
{
    let mut header = ByteRecord::new(alloc);
    let Some(mut reader) = past_header(alloc, bytes, &mut header)? else {
        return Err(EvalFault::Error(CellError::NoHeader));
    };
    if !few_columns(header.len()) {
        return Err(EvalFault::Error(CellError::TooLarge));
    }
    let columns = columns_of(alloc, &mut reader, &header, types.as_slice())?;
    let Some(mut reader) = past_header(alloc, bytes, &mut header)? else {
        return Err(EvalFault::Error(CellError::NoHeader));
    };
    let repairs = Repairs {
        repair,
        picks,
        cell,
    };
    table_of(alloc, &mut reader, &repairs, columns)
}
