//! The name that a field of a header asks for.
ghost use Rattle.std.specs.Prelude.{◌≡◌, ◌++◌, take, IfOk, OnOk};
ghost use Rattle.value_types.specs.Names.{is_digit};
ghost use Rattle.csv_load.specs.Names as spec;
ghost use Rattle.csv_load.specs.Calls.{link};

use crate::strip::without_end;
use std::alloc::Global;
use value_types::NoMemory;

fn is_digit(byte: u8) -> bool
    ensures { result ≡ is_digit byte }
{
    48 <= byte && byte <= 57
}

/// An ASCII letter or a digit.
fn is_kept(byte: u8) -> bool
    ensures { result ≡ spec.is_kept byte }
{
    let low = byte.to_ascii_lowercase();
    (97 <= low && low <= 122) || is_digit(byte)
}

/// A `_` after a text that goes on after other bytes.
fn push_link(text: &mut Vec<u8>, apart: bool) -> Result<(), NoMemory>
    ensures { OnOk result (text.new.items ≡ text.old.items ++ link text.old.items apart) }
{
    if apart && !text.is_empty() {
        text.push(b'_')?;
    }
    Ok(())
}

/// The letters in lower case and the digits, with one `_` where other bytes stand between two of them.
fn cleaned(alloc: Global, field: &[u8]) -> Result<Vec<u8>, NoMemory>
    ensures { IfOk result (λ v. v.items ≡ spec.cleaned field.now) }
{
    let mut text = Vec::new(alloc);
    let mut apart = false;
    for byte in field {
        if !is_kept(*byte) {
            apart = true;
            continue;
        }
        push_link(&mut text, apart)?;
        text.push(byte.to_ascii_lowercase())?;
        apart = false;
    }
    Ok(text)
}

fn front(text: &[u8]) -> &[u8]
    ensures { result.now ≡ take 24 text.now }
{
    if text.len() <= 24 {
        return text;
    }
    &text[..24]
}

/// At most 24 bytes, without `_` at the end.
fn cut(text: &[u8]) -> &[u8]
    ensures { result.now ≡ spec.cut text.now }
{
    without_end(front(text), b'_')
}

/// `c` where nothing is left, and `c_` before a digit.
fn begun(alloc: Global, text: &[u8]) -> Result<Vec<u8>, NoMemory>
    ensures { IfOk result (λ v. v.items ≡ spec.begun text.now) }
{
    let mut name = Vec::new(alloc);
    match text.split_first() {
        None => name.push(b'c')?,
        Some((first, _)) => {
            if is_digit(*first) {
                name.push(b'c')?;
                name.push(b'_')?;
            }
            name.extend_from_slice(text)?;
        }
    }
    Ok(name)
}

/// The name that a field of the header asks for.
pub(crate) fn base_name(alloc: Global, field: &[u8]) -> Result<Vec<u8>, NoMemory>
    ensures { IfOk result (λ v. v.items ≡ spec.base_name field.now) }
{
    begun(alloc, cut(cleaned(alloc, field)?.as_slice()))
}
