//! Comparisons.
ghost use Rattle.std.specs.Prelude.{◌≡◌};
ghost use Rattle.expr_ops.specs.Compare as spec;
ghost use Rattle.expr_ops.specs.Places.{placed};

use crate::number::ten_thousandths;
use cell_errors::CellError;
use std::cmp::Ordering;
use value_types::Value;

/// How two values stand, none where one is NULL. An Int is widened in 128 bits, which never overflows.
fn order(a: &Value, b: &Value) -> Result<Option<Ordering>, CellError>
    ensures { result ≡ spec.order a.now b.now }
{
    match (a, b) {
        (Value::Null, _) | (_, Value::Null) => Ok(None),
        (Value::Bool(a), Value::Bool(b)) => Ok(Some(a.cmp(b))),
        (Value::Int(a), Value::Int(b)) => Ok(Some(a.cmp(b))),
        (Value::Int(a), Value::Fixed(b)) => Ok(Some(ten_thousandths(*a).cmp(&i128::from(*b)))),
        (Value::Fixed(a), Value::Int(b)) => Ok(Some(i128::from(*a).cmp(&ten_thousandths(*b)))),
        (Value::Fixed(a), Value::Fixed(b)) => Ok(Some(a.cmp(b))),
        (Value::Text(a), Value::Text(b)) => Ok(Some(a.as_bytes().cmp(b.as_bytes()))),
        _ => Err(CellError::TypeFault),
    }
}

/// `=`.
///
/// - Error: `TypeFault` exactly where the values aren't NULL, of one type, or an Int and a Fixed.
pub fn equal(a: &Value, b: &Value) -> Result<Value, CellError>
    ensures { result ≡ spec.equal a.now b.now }
{
    match order(a, b)? {
        None => Ok(Value::Null),
        Some(o) => Ok(Value::Bool(o.is_eq())),
    }
}

/// How two values are compared.
#[derive(Clone, Copy)]
pub(crate) enum Comparison {
    Equal,
    NotEqual,
    Less,
    AtMost,
    Greater,
    AtLeast,
}

fn is_met(by: Comparison, order: Ordering) -> bool
    ensures { result ≡ spec.test_of by order }
{
    match by {
        Comparison::Equal => order.is_eq(),
        Comparison::NotEqual => order.is_ne(),
        Comparison::Less => order.is_lt(),
        Comparison::AtMost => order.is_le(),
        Comparison::Greater => order.is_gt(),
        Comparison::AtLeast => order.is_ge(),
    }
}

/// `=`, `<>`, `<`, `<=`, `>` and `>=`, with the answer left in the place of the left operand.
#[inline(never)]
pub(crate) fn compare(by: Comparison, a: &mut Value, b: &Value) -> Result<(), CellError>
    ensures { placed result a.new ≡ spec.compared (spec.test_of by) a.old b.now }
{
    match order(a, b)? {
        None => *a = Value::Null,
        Some(order) => *a = Value::Bool(is_met(by, order)),
    }
    Ok(())
}
