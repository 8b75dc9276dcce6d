//! The types of columns: declared, or guessed from all records.
ghost use Rattle.std.specs.Prelude.{◌≡◌, ◌-◌, ◌^◌, min, map, fold, IfOk, OnOk, unwrap_or, option_copied, length, ◌<◌};
ghost use Rattle.std.specs.List.{enumerate_from, range_with_len};
ghost use Rattle.csv.specs.Records.{fields_of};
ghost use Rattle.csv_load.specs.Guess as spec;
ghost use Rattle.csv_load.specs.Tallies.{with_field, with_record, guess_of, all_declared, tallies_of};
ghost use Rattle.csv_load.specs.Reading.{IsReading, left_of};

use crate::record::{field_of, read_next};
use crate::strip::stripped;
use csv::{ByteRecord, Reader};
use std::alloc::Global;
use std::io::Read;
use value_types::{ColumnType, NoMemory, read_bool, read_fixed, read_int};

/// How many of a column's texts aren't empty, and how many of these are readable as each type.
#[derive(Clone, Copy)]
pub(crate) struct Tally {
    filled: u64,
    ints: u64,
    fixeds: u64,
    truths: u64,
}

impl Tally {
    ghost use Rattle.csv_load.specs.Tallies.{no_texts, more_if, with_text, guess_of as guess_by_tally};

    fn new() -> Tally
        ensures { result ≡ no_texts }
    {
        Tally {
            filled: 0,
            ints: 0,
            fixeds: 0,
            truths: 0,
        }
    }

    /// The tally with one text more, which is stripped.
    fn with_text(self, text: &[u8]) -> Tally
        ensures { result ≡ with_text self text.now }
    {
        if text.is_empty() {
            return self;
        }
        Tally {
            filled: self.filled.saturating_add(1),
            ints: more_if(read_int(text).is_some(), self.ints),
            fixeds: more_if(read_fixed(text).is_some(), self.fixeds),
            truths: more_if(read_bool(text).is_some(), self.truths),
        }
    }

    fn mostly(self, readable: u64) -> bool
        ensures { result ≡ spec.mostly readable self.filled }
    {
        self.filled > 0 && 9 * u128::from(self.filled) <= 10 * u128::from(readable)
    }

    fn guess(self) -> ColumnType
        ensures { result ≡ guess_by_tally self }
    {
        if self.mostly(self.ints) {
            ColumnType::Int
        } else if self.mostly(self.fixeds) {
            ColumnType::Fixed
        } else if self.mostly(self.truths) {
            ColumnType::Bool
        } else {
            ColumnType::Text
        }
    }
}

ghost use Rattle.csv_load.specs.Tallies.{more_if};

fn more_if(holds: bool, count: u64) -> u64
    ensures { result ≡ more_if holds count }
{
    count.saturating_add(if holds { 1 } else { 0 })
}

/// A tally with one field more, if it is there.
fn with_field(tally: Tally, field: Option<&[u8]>) -> Tally
    ensures { result ≡ with_field tally (option_copied field.entry) }
{
    match field {
        Some(field) => tally.with_text(stripped(field)),
        None => tally,
    }
}

/// Counts the field of each column in its tally.
fn count_record(tallies: &mut [Tally], fields: &ByteRecord)
    ensures { tallies.new ≡ with_record tallies.old (fields_of fields.now) }
{
    for j in 0..tallies.len() {
        tallies[j] = with_field(tallies[j], field_of(fields, j));
    }
}

fn count_all<R: Read>(
    alloc: Global,
    reader: &mut Reader<R>,
    tallies: &mut [Tally],
) -> Result<(), NoMemory>
    requires { IsReading R.remaining reader.old }
    ensures { OnOk result (tallies.new
        ≡ fold with_record tallies.old (left_of R.remaining reader.old)) }
{
    let mut record = ByteRecord::new(alloc);
    while read_next(reader, &mut record)? {
        count_record(tallies, &record);
    }
    Ok(())
}

fn declared(types: &[Option<ColumnType>], place: usize) -> Option<ColumnType>
    ensures { result ≡ spec.declared types.now place }
{
    match types.get(place) {
        Some(kind) => *kind,
        None => None,
    }
}

fn all_declared(types: &[Option<ColumnType>], width: usize) -> bool
    ensures { result ≡ all_declared types.now width }
{
    (0..width).all(|j| declared(types, j).is_some())
}

/// The types that are declared, or else guessed by these counts.
fn kinds_by(
    alloc: Global,
    types: &[Option<ColumnType>],
    tallies: &[Tally],
) -> Result<Vec<ColumnType>, NoMemory>
    ensures { IfOk result (λ v. v.items
        ≡ map (λ p. unwrap_or (spec.declared types.now p.0) (guess_of p.1))
        (enumerate_from 0 tallies.now)) }
{
    let mut kinds = Vec::new(alloc);
    for (place, tally) in tallies.iter().enumerate() {
        kinds.push(declared(types, place).unwrap_or(tally.guess()))?;
    }
    Ok(kinds)
}

/// The counts of so many columns, which are all 0 where each type is declared.
fn tallies_of<R: Read>(
    alloc: Global,
    reader: &mut Reader<R>,
    types: &[Option<ColumnType>],
    width: usize,
) -> Result<Vec<Tally>, NoMemory>
    requires { IsReading R.remaining reader.old }
    ensures { IfOk result (λ v. v.items
        ≡ tallies_of types.now width (left_of R.remaining reader.old)) }
{
    let mut tallies = vec![in alloc; Tally::new(); width]?;
    if all_declared(types, width) {
        return Ok(tallies);
    }
    count_all(alloc, reader, tallies.as_mut_slice())?;
    Ok(tallies)
}

/// The types of so many columns.
pub(crate) fn kinds_of<R: Read>(
    alloc: Global,
    reader: &mut Reader<R>,
    types: &[Option<ColumnType>],
    width: usize,
) -> Result<Vec<ColumnType>, NoMemory>
    requires reading { IsReading R.remaining reader.old }
    requires few { length (left_of R.remaining reader.old) < 2 ^ 64 }
    ensures { IfOk result (λ v. v.items
        ≡ map (spec.kind_of types.now (left_of R.remaining reader.old)) (range_with_len 0 width)) }
{
    let tallies = tallies_of(alloc, reader, types, width)?;
    kinds_by(alloc, types, tallies.as_slice())
}
