//! The records of a file, read one after another.
ghost use Rattle.std.specs.Prelude.{◌≡◌, Some, option_copied, slice_get, IfOk, true};
ghost use Rattle.csv.specs.Records.{fields_of};
ghost use Rattle.csv_load.specs.Load.{records_of};
ghost use Rattle.csv_load.specs.Reading.{IsReading, IsNext, left_of};

use csv::{ByteRecord, ErrorKind, Reader, ReaderBuilder};
use std::alloc::Global;
use std::io::Read;
use value_types::NoMemory;

/// The reader of a file, before its first record.
pub(crate) fn reader_of(alloc: Global, bytes: &[u8]) -> Reader<&[u8]>
    ensures reading { IsReading (λ s. Some s.now) result }
    ensures records { left_of (λ s. Some s.now) result ≡ records_of bytes.now }
{
    ReaderBuilder::new()
        .has_headers(false)
        .flexible(true)
        .from_reader(alloc, bytes)
}

/// Reads the next record, if there is one.
pub(crate) fn read_next<R: Read>(
    reader: &mut Reader<R>,
    fields: &mut ByteRecord,
) -> Result<bool, NoMemory>
    requires { IsReading R.remaining reader.old }
    ensures reading { IfOk result (λ found. found ≡ true → IsReading R.remaining reader.new) }
    ensures next { IfOk result (λ found. IsNext (left_of R.remaining reader.old) found
        (fields_of fields.new) (left_of R.remaining reader.new)) }
{
    match reader.read_byte_record(fields) {
        Ok(found) => Ok(found),
        Err(error) => match error.into_kind() {
            ErrorKind::OutOfMemory => Err(NoMemory),
            // Bytes in memory are always read; no clause of `Read` says so.
            ErrorKind::Io(_) => Err(NoMemory),
            _ => unreachable!(),
        },
    }
}

/// The field of a record at a place, counted from 0, if it is there.
pub(crate) fn field_of(fields: &ByteRecord, place: usize) -> Option<&[u8]>
    ensures { option_copied result ≡ slice_get (fields_of fields.now) place }
{
    fields.get(place)
}
