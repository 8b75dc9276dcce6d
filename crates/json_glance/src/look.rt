//! A first look at a line.
ghost use Rattle.std.specs.Prelude.{◌≡◌, IfOk};
ghost use Rattle.serde_json.specs.Read.{read};
ghost use Rattle.json_glance.specs.Line as spec;

use crate::pass::pass;
use json::{Reader, Scratch};
use std::alloc::Global;
use std::str;
use value_types::{Bytes, NoMemory};

/// How deep arrays and objects may nest.
const MAX_DEPTH: usize = 127;

/// What a first look at a line tells.
#[derive(Debug, Drop)]
pub enum Glance {
    /// It is no JSON.
    NotJson,
    /// It is JSON, and that field of it isn't a text or isn't there.
    NoText,
    /// It is an object whose field is this text.
    Text(Bytes),
}

fn glance_at_text(alloc: Global, text: &str, name: &str) -> Result<Glance, NoMemory>
    ensures { IfOk result (λ g. g ≡ spec.glance_at name.now (read text.now)) }
{
    let mut scratch = Scratch::new(alloc);
    let Ok(mut reader) = Reader::new(text, &mut scratch) else {
        return Err(NoMemory);
    };
    let Ok(seen) = pass(&mut reader, MAX_DEPTH, name) else {
        return Ok(Glance::NotJson);
    };
    if reader.next().is_some() {
        return Ok(Glance::NotJson);
    }
    match seen.field {
        Some(found) => Ok(Glance::Text(Bytes::from_slice(alloc, found.as_bytes())?)),
        None => Ok(Glance::NoText),
    }
}

/// A first look at a line: whether it is JSON, and the text at one of its fields.
///
/// - Shape: the line's bytes, and the field's name.
/// - Source: docs/FORMATS.md, "Edit lines".
pub fn glance_at(alloc: Global, line: &[u8], name: &str) -> Result<Glance, NoMemory>
    ensures { IfOk result (λ g. g ≡ spec.glance_at name.now (spec.json_of line.now)) }
{
    match str::from_utf8(line) {
        Ok(text) => glance_at_text(alloc, text, name),
        Err(_) => Ok(Glance::NotJson),
    }
}
