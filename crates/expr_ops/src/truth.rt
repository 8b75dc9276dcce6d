//! Truth with NULL.
ghost use Rattle.std.specs.Prelude.{◌≡◌};
ghost use Rattle.expr_lang.specs.declared.ops.BinaryOp.TheVariants as by;
ghost use Rattle.expr_ops.specs.Ops.{binary_of};
ghost use Rattle.expr_ops.specs.Places.{placed};
ghost use Rattle.expr_ops.specs.Truths as spec;

use cell_errors::CellError;
use value_types::Value;

/// Whether a value is NULL.
pub fn is_null(value: &Value) -> bool
    ensures { result ≡ spec.is_null value.now }
{
    match value {
        Value::Null => true,
        Value::Bool(_) | Value::Int(_) | Value::Fixed(_) | Value::Text(_) => false,
    }
}

/// A value as a truth, none for NULL.
pub(crate) fn truth(value: &Value) -> Result<Option<bool>, CellError>
    ensures { result ≡ spec.truth value.now }
{
    match value {
        Value::Null => Ok(None),
        Value::Bool(b) => Ok(Some(*b)),
        Value::Int(_) | Value::Fixed(_) | Value::Text(_) => Err(CellError::TypeFault),
    }
}

fn truth_value(truth: Option<bool>) -> Value
    ensures { result ≡ spec.truth_value truth }
{
    match truth {
        None => Value::Null,
        Some(b) => Value::Bool(b),
    }
}

fn opposite(truth: Option<bool>) -> Option<bool>
    ensures { result ≡ spec.opposite truth }
{
    match truth {
        None => None,
        Some(b) => Some(!b),
    }
}

/// NOT.
pub(crate) fn negated(value: &Value) -> Result<Value, CellError>
    ensures { result ≡ spec.negated value.now }
{
    let truth = truth(value)?;
    Ok(truth_value(opposite(truth)))
}

/// The value, or NOT of it.
///
/// - Error: `TypeFault` exactly where NOT is asked of a value that is neither a Bool nor NULL.
pub fn negated_if(negate: bool, value: Value) -> Result<Value, CellError>
    ensures { result ≡ spec.negated_if negate value }
{
    if negate { negated(&value) } else { Ok(value) }
}

/// Whether a condition is TRUE, which NULL isn't.
///
/// - Error: `TypeFault` exactly where the value is neither a Bool nor NULL.
pub fn is_true(value: &Value) -> Result<bool, CellError>
    ensures { result ≡ spec.is_true value.now }
{
    match value {
        Value::Null => Ok(false),
        Value::Bool(b) => Ok(*b),
        Value::Int(_) | Value::Fixed(_) | Value::Text(_) => Err(CellError::TypeFault),
    }
}

/// IS NULL, or IS NOT NULL.
pub fn null_test(negate: bool, value: &Value) -> Value
    ensures { result ≡ spec.null_test negate value.now }
{
    let null = is_null(value);
    Value::Bool(if negate { !null } else { null })
}

fn null_or(truth: Option<bool>) -> Option<bool>
    ensures { result ≡ spec.null_or truth }
{
    match truth {
        Some(true) => Some(true),
        Some(false) | None => None,
    }
}

fn null_and(truth: Option<bool>) -> Option<bool>
    ensures { result ≡ spec.null_and truth }
{
    match truth {
        Some(false) => Some(false),
        Some(true) | None => None,
    }
}

/// OR, where the left operand is FALSE or NULL.
fn or_rest(left: &Value, right: Option<bool>) -> Value
    ensures { result ≡ spec.truth_value (spec.or_rest left.now right) }
{
    truth_value(if is_null(left) { null_or(right) } else { right })
}

/// AND, where the left operand is TRUE or NULL.
fn and_rest(left: &Value, right: Option<bool>) -> Value
    ensures { result ≡ spec.truth_value (spec.and_rest left.now right) }
{
    truth_value(if is_null(left) {
        null_and(right)
    } else {
        right
    })
}

/// OR, where the left operand is FALSE or NULL, with the answer left in its place.
#[inline(never)]
pub(crate) fn put_or(left: &mut Value, right: &Value) -> Result<(), CellError>
    ensures { placed result left.new ≡ binary_of by.Or left.old right.now }
{
    *left = or_rest(left, truth(right)?);
    Ok(())
}

/// AND, where the left operand is TRUE or NULL, with the answer left in its place.
#[inline(never)]
pub(crate) fn put_and(left: &mut Value, right: &Value) -> Result<(), CellError>
    ensures { placed result left.new ≡ binary_of by.And left.old right.now }
{
    *left = and_rest(left, truth(right)?);
    Ok(())
}
