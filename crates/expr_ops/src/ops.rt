//! The operators on values.
ghost use Rattle.std.specs.Prelude.{◌≡◌};
ghost use Rattle.cell_errors.specs.Answers.{Gives};
ghost use Rattle.expr_ops.specs.Ops as spec;
ghost use Rattle.expr_ops.specs.Places.{placed};

use crate::compare::{Comparison, compare};
use crate::number::{Arithmetic, absolute, calculate, on_two_ints, opposed, take_remainder};
use crate::text::{join, length_of, trimmed};
use crate::truth::{negated, put_and, put_or, truth};
use cell_errors::{CellError, EvalFault};
use expr_lang::{BinaryOp, UnaryOp};
use std::alloc::Global;
use value_types::Value;

/// An operator of one operand.
///
/// - Error: exactly where docs/EXPRESSIONS.md gives one: `TypeFault`, or `Overflow` at minus and ABS.
pub fn unary(alloc: Global, op: UnaryOp, value: &Value) -> Result<Value, EvalFault>
    ensures { Gives result (spec.unary_of op value.now) }
{
    match op {
        UnaryOp::Not => Ok(negated(value)?),
        UnaryOp::Minus => Ok(opposed(value)?),
        UnaryOp::Length => Ok(length_of(value)?),
        UnaryOp::Trim => trimmed(alloc, value),
        UnaryOp::Abs => Ok(absolute(value)?),
    }
}

/// Whether the left operand alone decides, and is the answer: FALSE of AND, TRUE of OR.
///
/// - Error: `TypeFault` exactly where the left operand of AND or OR is neither a Bool nor NULL.
#[inline(always)]
pub fn decides(op: BinaryOp, left: &Value) -> Result<bool, CellError>
    ensures { spec.deciding left.now result ≡ spec.decided op left.now }
{
    match op {
        BinaryOp::Or => match truth(left)? {
            Some(true) => Ok(true),
            Some(false) | None => Ok(false),
        },
        BinaryOp::And => match truth(left)? {
            Some(false) => Ok(true),
            Some(true) | None => Ok(false),
        },
        BinaryOp::Equal
        | BinaryOp::NotEqual
        | BinaryOp::Less
        | BinaryOp::AtMost
        | BinaryOp::Greater
        | BinaryOp::AtLeast
        | BinaryOp::Concat
        | BinaryOp::Add
        | BinaryOp::Subtract
        | BinaryOp::Multiply
        | BinaryOp::Divide
        | BinaryOp::Remainder => Ok(false),
    }
}

/// An operator of two operands, where the left one doesn't decide. It takes the left one, whose text `||` goes on.
///
/// - Error: exactly where docs/EXPRESSIONS.md gives one.
pub fn binary(alloc: Global, op: BinaryOp, a: Value, b: &Value) -> Result<Value, EvalFault>
    ensures { Gives result (spec.binary_of op a b.now) }
{
    let mut value = a;
    binary_in_place(alloc, op, &mut value, b)?;
    Ok(value)
}

/// The same, with the answer left in the place of the left operand. After an error anything may stand there.
#[inline(always)]
pub fn binary_in_place(
    alloc: Global,
    op: BinaryOp,
    a: &mut Value,
    b: &Value,
) -> Result<(), EvalFault>
    ensures { Gives (placed result a.new) (spec.binary_of op a.old b.now) }
{
    // Arithmetic on Ints, which most of it is, moves no value and makes no call.
    match on_two_ints(op, a, b) {
        Some(number) => {
            let n = number?;
            *a = Value::Int(n);
        }
        None => put_binary(alloc, op, a, b)?,
    }
    Ok(())
}

#[inline(never)]
fn put_binary(alloc: Global, op: BinaryOp, a: &mut Value, b: &Value) -> Result<(), EvalFault>
    ensures { Gives (placed result a.new) (spec.binary_of op a.old b.now) }
{
    match op {
        BinaryOp::Or => put_or(a, b)?,
        BinaryOp::And => put_and(a, b)?,
        BinaryOp::Equal => compare(Comparison::Equal, a, b)?,
        BinaryOp::NotEqual => compare(Comparison::NotEqual, a, b)?,
        BinaryOp::Less => compare(Comparison::Less, a, b)?,
        BinaryOp::AtMost => compare(Comparison::AtMost, a, b)?,
        BinaryOp::Greater => compare(Comparison::Greater, a, b)?,
        BinaryOp::AtLeast => compare(Comparison::AtLeast, a, b)?,
        BinaryOp::Concat => join(alloc, a, b)?,
        BinaryOp::Add => calculate(Arithmetic::Add, a, b)?,
        BinaryOp::Subtract => calculate(Arithmetic::Subtract, a, b)?,
        BinaryOp::Multiply => calculate(Arithmetic::Multiply, a, b)?,
        BinaryOp::Divide => calculate(Arithmetic::Divide, a, b)?,
        BinaryOp::Remainder => take_remainder(a, b)?,
    }
    Ok(())
}
