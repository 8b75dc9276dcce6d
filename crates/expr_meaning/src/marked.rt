//! The forms on values with their marks, once their operands were looked at.
ghost use Rattle.std.specs.Prelude.{◌≡◌, length, pos, Ok, OnOk};
ghost use Rattle.value_types.specs.declared.value.Value.TheVariants.{Text};
ghost use Rattle.cell_errors.specs.Seen.{unmarked};
ghost use Rattle.expr_meaning.specs.Sees.{Leaves, Sees, seen_as, setting_of};
ghost use Rattle.expr_meaning.specs.Meaning.{count_marked, find_marked};
ghost use Rattle.expr_meaning.specs.Steps.{beside_marked};

use crate::bindings::Bindings;
use crate::named::meant;
use crate::setting::Setting;
use cell_errors::{CellError, EvalFault};
use dataset_types::Marked;
use expr_lang::BinaryOp;
use expr_ops::binary_in_place;
use std::alloc::Global;
use value_types::{Name, NoMemory, Value, Words};

/// A literal, which is unmarked.
#[inline(never)]
pub(crate) fn literal(alloc: Global, value: &Value) -> Result<Marked, EvalFault>
    ensures { Sees result (unmarked (Ok value.now)) }
{
    Ok(Marked {
        value: value.copy(alloc)?,
        marked: false,
    })
}

/// What a name stands for, written again.
#[inline(never)]
pub(crate) fn found(
    alloc: Global,
    row: &Bindings,
    qualifier: &Option<Name>,
    name: &Name,
) -> Result<Marked, EvalFault>
    ensures { Sees result (find_marked row.now qualifier.now name.now) }
{
    let binding = meant(row.as_slice(), qualifier, name)?;
    Ok(Marked {
        value: binding.value.value.copy(alloc)?,
        marked: binding.value.marked,
    })
}

/// A text, written again in a place.
#[inline(never)]
fn put_text(alloc: Global, text: &Words, out: &mut Value) -> Result<(), NoMemory>
    ensures { OnOk result (out.new ≡ Text text.now) }
{
    *out = Value::Text(text.copy(alloc)?);
    Ok(())
}

/// A value, written again in a place.
#[inline(always)]
fn put_copy(alloc: Global, value: &Value, out: &mut Value) -> Result<(), NoMemory>
    ensures { OnOk result (out.new ≡ value.now) }
{
    // A value without a text is written where it is to stand, and not moved there.
    match value {
        Value::Null => *out = Value::Null,
        Value::Bool(b) => *out = Value::Bool(*b),
        Value::Int(n) => *out = Value::Int(*n),
        Value::Fixed(n) => *out = Value::Fixed(*n),
        Value::Text(text) => put_text(alloc, text, out)?,
    }
    Ok(())
}

/// A literal, put in a place.
pub(crate) fn put_literal(alloc: Global, value: &Value, out: &mut Marked) -> Result<(), EvalFault>
    ensures { Leaves result out.new (unmarked (Ok value.now)) }
{
    put_copy(alloc, value, &mut out.value)?;
    out.marked = false;
    Ok(())
}

/// What a name stands for, put in a place.
pub(crate) fn put_found(
    alloc: Global,
    row: &Bindings,
    qualifier: &Option<Name>,
    name: &Name,
    out: &mut Marked,
) -> Result<(), EvalFault>
    ensures { Leaves result out.new (find_marked row.now qualifier.now name.now) }
{
    let binding = meant(row.as_slice(), qualifier, name)?;
    put_copy(alloc, &binding.value.value, &mut out.value)?;
    out.marked = binding.value.marked;
    Ok(())
}

/// An operator whose left operand stands in `out` and didn't decide, on it and the right one.
#[inline(always)]
pub(crate) fn beside(
    alloc: Global,
    op: BinaryOp,
    right: &Value,
    marked: bool,
    out: &mut Marked,
) -> Result<(), EvalFault>
    ensures { Leaves result out.new (beside_marked op out.old (seen_as marked right.now)) }
{
    binary_in_place(alloc, op, &mut out.value, right)?;
    out.marked |= marked;
    Ok(())
}

fn count_of(rows: &[Bindings]) -> i64
    ensures { result ≡ pos (length rows.now) }
{
    rows.len() as i64
}

/// COUNT(*).
#[inline(never)]
pub(crate) fn count_all(setting: &Setting) -> Result<Marked, EvalFault>
    ensures { Sees result (count_marked (setting_of setting.now).group setting.now.marked) }
{
    match setting.group {
        None => Err(EvalFault::Error(CellError::TypeFault)),
        Some(rows) => Ok(Marked {
            value: Value::Int(count_of(rows)),
            marked: setting.marked,
        }),
    }
}
