//! The texts of values and row ids.
ghost use Rattle.std.specs.Prelude.{◌≡◌, ◌++◌, OnOk, OnErr};
ghost use Rattle.value_types.specs.Text as spec;

use crate::memory::NoMemory;
use crate::number_text::{push_decimal, push_fixed, push_int};
use crate::quoted::push_quoted;
use crate::row_id::RowId;
use crate::value::Value;
use crate::words::Words;
use std::alloc::Global;

/// Appends the literal text. After an error a part of it may be there.
///
/// - Source: docs/FORMATS.md, "Values and row ids".
pub fn push_literal(alloc: Global, out: &mut Words, value: &Value) -> Result<(), NoMemory>
    ensures { OnOk result (out.new ≡ out.old ++ spec.literal value.now) }
{
    match value {
        Value::Null => out.push_text(alloc, "null"),
        Value::Bool(true) => out.push_text(alloc, "true"),
        Value::Bool(false) => out.push_text(alloc, "false"),
        Value::Int(n) => push_int(alloc, out, *n),
        Value::Fixed(n) => push_fixed(alloc, out, *n),
        Value::Text(text) => push_quoted(alloc, out, text.as_text()),
    }
}

/// Appends the literal texts with a comma between two.
fn push_literals(alloc: Global, out: &mut Words, values: &[Value]) -> Result<(), NoMemory>
    ensures { OnOk result (out.new ≡ out.old ++ spec.with_commas values.now) }
{
    let mut first = true;
    for value in values {
        if !first {
            out.push_text(alloc, ",")?;
        }
        push_literal(alloc, out, value)?;
        first = false;
    }
    Ok(())
}

/// Appends the id's text. After an error a part of it may be there.
///
/// - Source: docs/FORMATS.md, "Values and row ids".
#[tactic(auto, using(crate::proofs::IdTexts::id_texts))]
pub fn push_id(alloc: Global, out: &mut Words, id: &RowId) -> Result<(), NoMemory>
    ensures { OnOk result (out.new ≡ out.old ++ spec.id id.now) }
{
    match id {
        RowId::Rec(n) => {
            out.push_text(alloc, "#")?;
            push_decimal(alloc, out, u64::from(*n))
        }
        RowId::Named(name) => {
            out.push_text(alloc, "@")?;
            out.push_text(alloc, name.as_text())
        }
        RowId::Emit(n) => {
            out.push_text(alloc, "+")?;
            push_decimal(alloc, out, u64::from(*n))
        }
        RowId::Pair(left, right) => {
            out.push_text(alloc, "(")?;
            push_id(alloc, out, left.get())?;
            out.push_text(alloc, ",")?;
            push_id(alloc, out, right.get())?;
            out.push_text(alloc, ")")
        }
        RowId::Alone(of) => {
            out.push_text(alloc, "(")?;
            push_id(alloc, out, of.get())?;
            out.push_text(alloc, ",-)")
        }
        RowId::First(of) => {
            out.push_text(alloc, "<")?;
            push_id(alloc, out, of.get())
        }
        RowId::Second(of) => {
            out.push_text(alloc, ">")?;
            push_id(alloc, out, of.get())
        }
        RowId::Key(values) => {
            out.push_text(alloc, "[")?;
            push_literals(alloc, out, values.as_slice())?;
            out.push_text(alloc, "]")
        }
    }
}

/// Appends the literal text.
///
/// - Error: want of memory, which leaves the text as it was.
pub fn literal_text(alloc: Global, value: &Value, out: &mut Words) -> Result<(), NoMemory>
    ensures ok { OnOk result (out.new ≡ out.old ++ spec.literal value.now) }
    ensures err { OnErr result (out.new ≡ out.old) }
{
    let mut text = Words::new(alloc)?;
    push_literal(alloc, &mut text, value)?;
    out.push_text(alloc, text.as_text())
}

/// Appends a Text's own bytes, and the literal text of any other value.
///
/// - Error: want of memory, which leaves the text as it was.
pub fn plain_text(alloc: Global, value: &Value, out: &mut Words) -> Result<(), NoMemory>
    ensures ok { OnOk result (out.new ≡ out.old ++ spec.plain value.now) }
    ensures err { OnErr result (out.new ≡ out.old) }
{
    match value {
        Value::Text(text) => out.push_text(alloc, text.as_text()),
        _ => literal_text(alloc, value, out),
    }
}

/// Appends the id's text.
///
/// - Error: want of memory, which leaves the text as it was.
pub fn id_text(alloc: Global, id: &RowId, out: &mut Words) -> Result<(), NoMemory>
    ensures ok { OnOk result (out.new ≡ out.old ++ spec.id id.now) }
    ensures err { OnErr result (out.new ≡ out.old) }
{
    let mut text = Words::new(alloc)?;
    push_id(alloc, &mut text, id)?;
    out.push_text(alloc, text.as_text())
}
