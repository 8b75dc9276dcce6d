//! LIKE.
ghost use Rattle.std.specs.Prelude.{◌≡◌, ◌∷◌, ◌+◌, true, false, length, drop, IfOk};
ghost use Rattle.std.specs.Str.{chars};
ghost use Rattle.cell_errors.specs.Answers.{Gives};
ghost use Rattle.expr_ops.specs.Texts as spec;
ghost use Rattle.expr_ops.specs.LikeSteps as steps;

use crate::number::null_where;
use cell_errors::EvalFault;
use std::alloc::Global;
use value_types::{NoMemory, Value};

fn characters(alloc: Global, text: &str) -> Result<Vec<char>, NoMemory>
    ensures { IfOk result (λ v. v.items ≡ chars text.now) }
{
    Ok(text.chars().collect(alloc)?)
}

/// Whether the text has a character at the place that is wanted.
fn begins(wanted: char, text: &[char], place: usize) -> bool
    ensures { result ≡ steps.begins wanted (drop place text.now) }
{
    match text.get(place) {
        None => false,
        Some(c) => wanted == '_' || wanted == *c,
    }
}

/// The start of a text, which an empty front of a pattern reaches.
fn start(alloc: Global, text: &[char]) -> Result<Vec<bool>, NoMemory>
    ensures { IfOk result (λ v. v.items ≡ true ∷ steps.none_of text.now) }
{
    let mut reached = Vec::new(alloc);
    reached.push(true)?;
    for _character in text {
        reached.push(false)?;
    }
    Ok(reached)
}

/// The places that `%` reaches.
fn and_after(alloc: Global, reached: &[bool]) -> Result<Vec<bool>, NoMemory>
    ensures { IfOk result (λ v. v.items ≡ steps.and_after false reached.now) }
{
    let mut after = Vec::new(alloc);
    let mut sofar = false;
    for here in reached {
        sofar |= *here;
        after.push(sofar)?;
    }
    Ok(after)
}

/// The places that one character reaches.
fn one_on(
    alloc: Global,
    wanted: char,
    reached: &[bool],
    text: &[char],
) -> Result<Vec<bool>, NoMemory>
    ensures { IfOk result (λ v. v.items ≡ steps.one_on wanted false reached.now text.now) }
{
    let mut after = Vec::new(alloc);
    let mut before = false;
    for (place, here) in reached.iter().enumerate() {
        after.push(before)?;
        before = *here & begins(wanted, text, place);
    }
    Ok(after)
}

/// The places that one part of a pattern reaches from those that its front reaches.
fn reach(
    alloc: Global,
    wanted: char,
    reached: &[bool],
    text: &[char],
) -> Result<Vec<bool>, NoMemory>
    ensures { IfOk result (λ v. v.items ≡ steps.reached wanted reached.now text.now) }
{
    if wanted == '%' {
        and_after(alloc, reached)
    } else {
        one_on(alloc, wanted, reached, text)
    }
}

/// Whether the text is one of the pattern, in a step for each character of both.
fn matches(alloc: Global, text: &str, pattern: &str) -> Result<bool, NoMemory>
    ensures { IfOk result (λ b. b ≡ spec.matches (chars pattern.now) (chars text.now)) }
{
    let letters = characters(alloc, text)?;
    let parts = characters(alloc, pattern)?;
    let mut reached = start(alloc, letters.as_slice())?;
    for wanted in parts.as_slice() {
        reached = reach(alloc, *wanted, reached.as_slice(), letters.as_slice())?;
    }
    Ok(reached[letters.len()])
}

fn is_text(value: &Value) -> bool
    ensures { result ≡ spec.is_text value.now }
{
    match value {
        Value::Null | Value::Text(_) => true,
        Value::Bool(_) | Value::Int(_) | Value::Fixed(_) => false,
    }
}

/// LIKE: `%` stands for any run of characters, `_` for one, and nothing escapes them.
///
/// - Error: `TypeFault` exactly where an operand is neither a Text nor NULL.
pub fn like(alloc: Global, value: &Value, pattern: &Value) -> Result<Value, EvalFault>
    ensures { Gives result (spec.like value.now pattern.now) }
{
    match (value, pattern) {
        (Value::Text(text), Value::Text(pattern)) => {
            let found = matches(alloc, text.as_text(), pattern.as_text())?;
            Ok(Value::Bool(found))
        }
        _ => Ok(null_where(is_text(value) && is_text(pattern))?),
    }
}
