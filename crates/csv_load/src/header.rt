//! The names of columns.
ghost use Rattle.std.specs.Prelude.{◌≡◌, ◌≤◌, IfOk, length};
ghost use Rattle.std.specs.List.{list_any};
ghost use Rattle.std.specs.Str.{bytes_eq};
ghost use Rattle.csv.specs.Records.{fields_of};
ghost use Rattle.csv_load.specs.Names as spec;
ghost use Rattle.csv_load.specs.Calls.{IsBase};

use crate::clean::base_name;
use crate::record::field_of;
use csv::ByteRecord;
use std::alloc::Global;
use value_types::{Name, Names, NoMemory, read_name};

fn is_same(name: &Name, text: &[u8]) -> bool
    ensures { result ≡ bytes_eq text.now name.now }
{
    text == name.as_slice()
}

fn is_taken(taken: &[Name], text: &[u8]) -> bool
    ensures { result ≡ list_any (bytes_eq text.now) taken.now }
{
    taken.iter().any(|name| is_same(name, text))
}

fn with_number(alloc: Global, name: &[u8], k: u32) -> Result<Vec<u8>, NoMemory>
    ensures { IfOk result (λ v. v.items ≡ spec.with_number name.now k) }
{
    let mut text = name.to_vec(alloc)?;
    text.push(b'_')?;
    text.extend_from_slice(format!(in alloc; "{k}")?.as_bytes())?;
    Ok(text)
}

/// The name, or with the least number from 2 on that makes it one that isn't taken.
fn free_name(alloc: Global, taken: &[Name], name: &[u8]) -> Result<Name, NoMemory>
    requires base { IsBase name.now }
    requires few { length taken.now ≤ 32 }
    ensures { IfOk result (λ n. n ≡ spec.free_name taken.now name.now) }
{
    if !is_taken(taken, name) {
        return Ok(read_name(name).unwrap());
    }
    for k in 2..taken.len() as u32 + 2 {
        let candidate = with_number(alloc, name, k)?;
        if !is_taken(taken, candidate.as_slice()) {
            return Ok(read_name(candidate.as_slice()).unwrap());
        }
    }
    unreachable!()
}

/// The name for a field, after those that are taken.
fn name_for(alloc: Global, taken: &[Name], field: &[u8]) -> Result<Name, NoMemory>
    requires { length taken.now ≤ 32 }
    ensures { IfOk result (λ n. n ≡ spec.free_name taken.now (spec.base_name field.now)) }
{
    let base = base_name(alloc, field)?;
    free_name(alloc, taken, base.as_slice())
}

/// The names of a header's columns.
pub(crate) fn names_of(alloc: Global, header: &ByteRecord) -> Result<Names, NoMemory>
    requires { length (fields_of header.now) ≤ 32 }
    ensures { IfOk result (λ names. names ≡ spec.names_of (fields_of header.now)) }
{
    let mut names = Names::new(alloc)?;
    while let Some(field) = field_of(header, names.len()) {
        let name = name_for(alloc, names.as_slice(), field)?;
        names.push(alloc, name)?;
    }
    Ok(names)
}
