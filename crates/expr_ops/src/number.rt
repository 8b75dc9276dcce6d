//! Arithmetic.
ghost use Rattle.std.specs.Prelude.{◌≡◌, ◌<◌, ◌≤◌, ◌^◌, ◌*ℤ◌, unsigned_abs, pos, is_some, IfSome};
ghost use Rattle.expr_ops.specs.Arithmetic as spec;
ghost use Rattle.expr_ops.specs.Ops.{binary_of};
ghost use Rattle.expr_ops.specs.Places.{placed};

use cell_errors::CellError;
use expr_lang::BinaryOp;
use value_types::Value;

/// An operator on two numbers.
#[derive(Clone, Copy, Debug, PartialEq, Eq)]
pub enum Arithmetic {
    Add,
    Subtract,
    Multiply,
    Divide,
}

/// The number, where an i64 has it.
pub(crate) fn in_range(n: i128) -> Result<i64, CellError>
    ensures { result ≡ spec.in_range n }
{
    if n < i128::from(i64::MIN) || n > i128::from(i64::MAX) {
        return Err(CellError::Overflow);
    }
    Ok(n as i64)
}

/// A whole number, counted in ten-thousandths.
pub(crate) fn ten_thousandths(n: i64) -> i128
    ensures { result ≡ spec.ten_thousandths n }
{
    i128::from(n) * 10_000
}

fn divided(a: i128, b: i64) -> Result<i64, CellError>
    requires { unsigned_abs a ≤ 2 ^ 80 }
    ensures { result ≡ spec.divided a b }
{
    if b == 0 {
        return Err(CellError::ZeroDivisor);
    }
    in_range(a / i128::from(b))
}

// In 64 bits, where a division takes a fraction of the time that it takes in 128.
fn quotient(a: i64, b: i64) -> Result<i64, CellError>
    ensures { result ≡ spec.divided a b }
{
    if b == 0 {
        return Err(CellError::ZeroDivisor);
    }
    a.checked_div(b).ok_or(CellError::Overflow)
}

fn remainder(a: i64, b: i64) -> Result<i64, CellError>
    ensures { result ≡ spec.remainder a b }
{
    if b == 0 {
        return Err(CellError::ZeroDivisor);
    }
    // Where the least i64 is divided by -1, the remainder is 0, though the quotient leaves 64 bits.
    Ok(a.wrapping_rem(b))
}

fn product(a: i64, b: i64) -> i128
    ensures { result ≡ a *ℤ b }
{
    i128::from(a) * i128::from(b)
}

fn on_ints(op: Arithmetic, a: i64, b: i64) -> Result<i64, CellError>
    ensures { result ≡ spec.on_ints op a b }
{
    match op {
        Arithmetic::Add => in_range(i128::from(a) + i128::from(b)),
        Arithmetic::Subtract => in_range(i128::from(a) - i128::from(b)),
        Arithmetic::Multiply => in_range(product(a, b)),
        Arithmetic::Divide => quotient(a, b),
    }
}

fn on_fixeds(op: Arithmetic, a: i64, b: i64) -> Result<i64, CellError>
    ensures { result ≡ spec.on_fixeds op a b }
{
    match op {
        Arithmetic::Add => in_range(i128::from(a) + i128::from(b)),
        Arithmetic::Subtract => in_range(i128::from(a) - i128::from(b)),
        Arithmetic::Multiply => in_range(product(a, b) / 10_000),
        Arithmetic::Divide => divided(ten_thousandths(a), b),
    }
}

fn is_number(value: &Value) -> bool
    ensures { result ≡ spec.is_number value.now }
{
    match value {
        Value::Null | Value::Int(_) | Value::Fixed(_) => true,
        Value::Bool(_) | Value::Text(_) => false,
    }
}

fn is_int(value: &Value) -> bool
    ensures { result ≡ spec.is_int value.now }
{
    match value {
        Value::Null | Value::Int(_) => true,
        Value::Bool(_) | Value::Fixed(_) | Value::Text(_) => false,
    }
}

/// NULL, where the types of the operands are allowed.
pub(crate) fn null_where(allowed: bool) -> Result<Value, CellError>
    ensures { result ≡ spec.null_where allowed }
{
    if allowed {
        Ok(Value::Null)
    } else {
        Err(CellError::TypeFault)
    }
}

/// `+ - * /`.
fn calculated(op: Arithmetic, a: &Value, b: &Value) -> Result<Value, CellError>
    ensures { result ≡ spec.calculated op a.now b.now }
{
    match (a, b) {
        (Value::Int(a), Value::Int(b)) => Ok(Value::Int(on_ints(op, *a, *b)?)),
        (Value::Int(a), Value::Fixed(b)) => {
            let a = in_range(ten_thousandths(*a))?;
            Ok(Value::Fixed(on_fixeds(op, a, *b)?))
        }
        (Value::Fixed(a), Value::Int(b)) => {
            let b = in_range(ten_thousandths(*b))?;
            Ok(Value::Fixed(on_fixeds(op, *a, b)?))
        }
        (Value::Fixed(a), Value::Fixed(b)) => Ok(Value::Fixed(on_fixeds(op, *a, *b)?)),
        _ => null_where(is_number(a) && is_number(b)),
    }
}

/// `%`.
fn remaining(a: &Value, b: &Value) -> Result<Value, CellError>
    ensures { result ≡ spec.remaining a.now b.now }
{
    match (a, b) {
        (Value::Int(a), Value::Int(b)) => Ok(Value::Int(remainder(*a, *b)?)),
        _ => null_where(is_int(a) && is_int(b)),
    }
}

/// `+ - * /`, with the answer left in the place of the left operand.
#[inline(never)]
pub(crate) fn calculate(op: Arithmetic, a: &mut Value, b: &Value) -> Result<(), CellError>
    ensures { placed result a.new ≡ spec.calculated op a.old b.now }
{
    *a = calculated(op, a, b)?;
    Ok(())
}

/// `%`, with the answer left in the place of the left operand.
#[inline(never)]
pub(crate) fn take_remainder(a: &mut Value, b: &Value) -> Result<(), CellError>
    ensures { placed result a.new ≡ spec.remaining a.old b.now }
{
    *a = remaining(a, b)?;
    Ok(())
}

/// What an operator of arithmetic gives on two Ints; none of other operators and values.
#[inline(always)]
pub(crate) fn on_two_ints(op: BinaryOp, a: &Value, b: &Value) -> Option<Result<i64, CellError>>
    ensures found { is_some result ≡ spec.is_on_ints op a.now b.now }
    ensures value { IfSome result (λ n. spec.an_int n ≡ binary_of op a.now b.now) }
{
    match (a, b) {
        (Value::Int(a), Value::Int(b)) => match op {
            BinaryOp::Add => Some(on_ints(Arithmetic::Add, *a, *b)),
            BinaryOp::Subtract => Some(on_ints(Arithmetic::Subtract, *a, *b)),
            BinaryOp::Multiply => Some(on_ints(Arithmetic::Multiply, *a, *b)),
            BinaryOp::Divide => Some(on_ints(Arithmetic::Divide, *a, *b)),
            BinaryOp::Remainder => Some(remainder(*a, *b)),
            _ => None,
        },
        _ => None,
    }
}

/// Unary minus.
pub(crate) fn opposed(value: &Value) -> Result<Value, CellError>
    ensures { result ≡ spec.opposed value.now }
{
    match value {
        Value::Null => Ok(Value::Null),
        Value::Int(n) => Ok(Value::Int(in_range(-i128::from(*n))?)),
        Value::Fixed(n) => Ok(Value::Fixed(in_range(-i128::from(*n))?)),
        Value::Bool(_) | Value::Text(_) => Err(CellError::TypeFault),
    }
}

fn size(n: i64) -> i128
    ensures { result ≡ pos (unsigned_abs n) }
{
    i128::from(n.unsigned_abs())
}

/// ABS.
pub(crate) fn absolute(value: &Value) -> Result<Value, CellError>
    ensures { result ≡ spec.absolute value.now }
{
    match value {
        Value::Null => Ok(Value::Null),
        Value::Int(n) => Ok(Value::Int(in_range(size(*n))?)),
        Value::Fixed(n) => Ok(Value::Fixed(in_range(size(*n))?)),
        Value::Bool(_) | Value::Text(_) => Err(CellError::TypeFault),
    }
}
