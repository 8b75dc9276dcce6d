//! CAST.
ghost use Rattle.std.specs.Prelude.{◌≡◌};
ghost use Rattle.cell_errors.specs.Answers.{Gives};
ghost use Rattle.expr_ops.specs.Casts as spec;
ghost use Rattle.value_types.specs.declared.value.ColumnType.TheVariants as kind;

use crate::number::{in_range, ten_thousandths};
use crate::text::into_plain;
use cell_errors::{CellError, EvalFault};
use std::alloc::Global;
use value_types::{ColumnType, Value, read_bool, read_fixed, read_int};

fn to_bool(value: &Value) -> Result<Value, CellError>
    ensures { result ≡ spec.cast kind.Bool value.now }
{
    match value {
        Value::Null => Ok(Value::Null),
        Value::Bool(b) => Ok(Value::Bool(*b)),
        Value::Int(_) | Value::Fixed(_) => Err(CellError::TypeFault),
        Value::Text(text) => match read_bool(text.as_bytes()) {
            Some(b) => Ok(Value::Bool(b)),
            None => Err(CellError::BadCast),
        },
    }
}

fn to_int(value: &Value) -> Result<Value, CellError>
    ensures { result ≡ spec.cast kind.Int value.now }
{
    match value {
        Value::Null => Ok(Value::Null),
        Value::Bool(_) => Err(CellError::TypeFault),
        Value::Int(n) => Ok(Value::Int(*n)),
        Value::Fixed(n) => Ok(Value::Int(*n / 10_000)),
        Value::Text(text) => match read_int(text.as_bytes()) {
            Some(n) => Ok(Value::Int(n)),
            None => Err(CellError::BadCast),
        },
    }
}

fn to_fixed(value: &Value) -> Result<Value, CellError>
    ensures { result ≡ spec.cast kind.Fixed value.now }
{
    match value {
        Value::Null => Ok(Value::Null),
        Value::Bool(_) => Err(CellError::TypeFault),
        Value::Int(n) => Ok(Value::Fixed(in_range(ten_thousandths(*n))?)),
        Value::Fixed(n) => Ok(Value::Fixed(*n)),
        Value::Text(text) => match read_fixed(text.as_bytes()) {
            Some(n) => Ok(Value::Fixed(n)),
            None => Err(CellError::BadCast),
        },
    }
}

fn to_text(alloc: Global, value: Value) -> Result<Value, EvalFault>
    ensures { Gives result (spec.cast kind.Text value) }
{
    match value {
        Value::Null => Ok(Value::Null),
        Value::Text(text) => Ok(Value::Text(text)),
        other => Ok(Value::Text(into_plain(alloc, other)?)),
    }
}

/// The value as one of the type.
///
/// - Error: `BadCast` exactly where a Text isn't in the type's grammar, `Overflow` where an Int doesn't fit a
///   Fixed, `TypeFault` where the types don't go together.
/// - Source: docs/EXPRESSIONS.md, "CAST".
pub fn cast(alloc: Global, value: Value, kind: ColumnType) -> Result<Value, EvalFault>
    ensures { Gives result (spec.cast kind value) }
{
    match kind {
        ColumnType::Bool => Ok(to_bool(&value)?),
        ColumnType::Int => Ok(to_int(&value)?),
        ColumnType::Fixed => Ok(to_fixed(&value)?),
        ColumnType::Text => to_text(alloc, value),
    }
}
