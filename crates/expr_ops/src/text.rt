//! LENGTH, TRIM and `||`.
ghost use Rattle.std.specs.Prelude.{◌≡◌, pos, length, IfOk};
ghost use Rattle.std.specs.Str.{chars};
ghost use Rattle.value_types.specs.Text.{plain};
ghost use Rattle.cell_errors.specs.Answers.{Gives};
ghost use Rattle.expr_ops.specs.Places.{placed};
ghost use Rattle.expr_ops.specs.Texts as spec;

use crate::truth::is_null;
use cell_errors::{CellError, EvalFault};
use std::alloc::Global;
use std::mem;
use value_types::{NoMemory, Value, Words, plain_text};

/// How many characters a text has.
fn characters(text: &str) -> i64
    ensures { result ≡ pos (length (chars text.now)) }
{
    text.chars().count() as i64
}

/// LENGTH, in characters.
pub(crate) fn length_of(value: &Value) -> Result<Value, CellError>
    ensures { result ≡ spec.length_of value.now }
{
    match value {
        Value::Null => Ok(Value::Null),
        Value::Text(text) => Ok(Value::Int(characters(text.as_text()))),
        Value::Bool(_) | Value::Int(_) | Value::Fixed(_) => Err(CellError::TypeFault),
    }
}

fn without_front(text: &str) -> &str
    ensures { result.now ≡ spec.without_front text.now }
{
    let mut rest = text;
    while let Some(after) = rest.strip_prefix(' ') {
        rest = after;
    }
    rest
}

fn without_end(text: &str) -> &str
    ensures { result.now ≡ spec.without_end text.now }
{
    let mut rest = text;
    while let Some(before) = rest.strip_suffix(' ') {
        rest = before;
    }
    rest
}

/// TRIM: without the spaces at both ends.
pub(crate) fn trimmed(alloc: Global, value: &Value) -> Result<Value, EvalFault>
    ensures { Gives result (spec.trimmed value.now) }
{
    match value {
        Value::Null => Ok(Value::Null),
        Value::Text(text) => {
            let mut kept = Words::new(alloc)?;
            kept.push_text(alloc, without_end(without_front(text.as_text())))?;
            Ok(Value::Text(kept))
        }
        Value::Bool(_) | Value::Int(_) | Value::Fixed(_) => {
            Err(EvalFault::Error(CellError::TypeFault))
        }
    }
}

/// A value's plain text. A Text is moved, not copied.
pub(crate) fn into_plain(alloc: Global, value: Value) -> Result<Words, NoMemory>
    ensures { IfOk result (λ t. t ≡ plain value) }
{
    match value {
        Value::Text(text) => Ok(text),
        other => {
            let mut text = Words::new(alloc)?;
            plain_text(alloc, &other, &mut text)?;
            Ok(text)
        }
    }
}

/// `||`, in the place of the left operand. The right text is written after the left one, so that a chain takes the
/// time of its text.
#[inline(never)]
pub(crate) fn join(alloc: Global, left: &mut Value, right: &Value) -> Result<(), EvalFault>
    ensures { Gives (placed result left.new) (spec.joined left.old right.now) }
{
    if is_null(left) || is_null(right) {
        *left = Value::Null;
        return Ok(());
    }
    let mut text = into_plain(alloc, mem::replace(left, Value::Null))?;
    plain_text(alloc, right, &mut text)?;
    if text.len() > 65_536 {
        return Err(EvalFault::Error(CellError::TooLarge));
    }
    *left = Value::Text(text);
    Ok(())
}
