//! Texts between double quotes.
ghost use Rattle.std.specs.Prelude.{◌≡◌, ◌++◌, ◌<◌, OnOk};
ghost use Rattle.std.specs.List.{list_all};
ghost use Rattle.value_types.specs.Text as spec;

use crate::memory::NoMemory;
use crate::words::Words;
use std::alloc::Global;

fn hex_digit(d: u8) -> char
    requires { d < 16 }
    ensures { result ≡ spec.hex_digit d }
{
    if d < 10 {
        char::from(b'0' + d)
    } else {
        char::from(87 + d)
    }
}

fn push_escaped(alloc: Global, out: &mut Words, c: char) -> Result<(), NoMemory>
    ensures { OnOk result (out.new ≡ out.old ++ spec.escaped c) }
{
    match c {
        '"' => out.push_text(alloc, "\\\""),
        '\\' => out.push_text(alloc, "\\\\"),
        '\n' => out.push_text(alloc, "\\n"),
        '\r' => out.push_text(alloc, "\\r"),
        '\t' => out.push_text(alloc, "\\t"),
        _ => {
            let n = u32::from(c);
            if n < 32 {
                out.push_text(alloc, "\\u00")?;
                out.push_char(alloc, hex_digit((n / 16) as u8))?;
                out.push_char(alloc, hex_digit((n % 16) as u8))
            } else {
                out.push_char(alloc, c)
            }
        }
    }
}

fn is_plain(byte: u8) -> bool
    ensures { result ≡ spec.is_plain byte }
{
    (byte >= 32) & (byte != b'"') & (byte != b'\\')
}

/// Whether a text stands between quotes as it is.
fn all_plain(text: &[u8]) -> bool
    ensures { result ≡ list_all spec.is_plain text.now }
{
    // It has no early end, so that many bytes are looked at together.
    let mut all = true;
    for byte in text {
        all &= is_plain(*byte);
    }
    all
}

/// Appends what stands between the quotes.
#[tactic(auto, using(crate::proofs::PlainTexts::quotes))]
fn push_inner(alloc: Global, out: &mut Words, text: &str) -> Result<(), NoMemory>
    ensures { OnOk result (out.new ≡ out.old ++ spec.inner text.now) }
{
    for c in text.chars() {
        push_escaped(alloc, out, c)?;
    }
    Ok(())
}

/// Appends a text with its quotes. One without a character to be escaped goes as a whole.
#[tactic(auto, using(crate::proofs::PlainTexts::plain))]
pub fn push_quoted(alloc: Global, out: &mut Words, text: &str) -> Result<(), NoMemory>
    ensures { OnOk result (out.new ≡ out.old ++ spec.quoted text.now) }
{
    out.push_text(alloc, "\"")?;
    if all_plain(text.as_bytes()) {
        out.push_text(alloc, text)?;
    } else {
        push_inner(alloc, out, text)?;
    }
    out.push_text(alloc, "\"")
}
