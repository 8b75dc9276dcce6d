//! Aggregates of values.
ghost use Rattle.std.specs.Prelude.{◌≡◌, ◌≤◌, ◌<◌, length, ◌^◌, ◌+◌, ◌+ℤ◌, unsigned_abs, IfOk};
ghost use Rattle.cell_errors.specs.Answers.{Gives};
ghost use Rattle.expr_ops.specs.Aggregates as spec;

use crate::number::in_range;
use crate::truth::is_null;
use cell_errors::{CellError, EvalFault};
use std::alloc::Global;
use value_types::{ListOf, NoMemory, Value, Values, compare};

/// A function of all values of a group.
#[derive(Clone, Copy, Debug, PartialEq, Eq)]
pub enum Aggregate {
    Count,
    Sum,
    Min,
    Max,
}

fn not_null(alloc: Global, values: Values) -> Result<Values, NoMemory>
    ensures { IfOk result (λ vs. vs ≡ spec.not_null values) }
{
    let mut kept = ListOf::new(alloc)?;
    for value in values.into_vec() {
        if !is_null(&value) {
            kept.push(alloc, value)?;
        }
    }
    Ok(kept)
}

fn count_in(value: &Value) -> i64
    ensures value { result ≡ spec.count_in value.now }
    ensures bound { unsigned_abs result ≤ 9223372036854775808 }
{
    match value {
        Value::Int(n) | Value::Fixed(n) => *n,
        Value::Null | Value::Bool(_) | Value::Text(_) => 0,
    }
}

fn plus(sum: i128, value: &Value) -> i128
    requires { unsigned_abs sum ≤ 2 ^ 126 }
    ensures value { result ≡ (sum +ℤ spec.count_in value.now) }
    ensures bound { unsigned_abs result ≤ unsigned_abs sum + 9223372036854775808 }
{
    sum + i128::from(count_in(value))
}

fn total(values: &[Value]) -> i128
    ensures { result ≡ spec.total values.now }
{
    let mut sum = 0;
    for value in values {
        sum = plus(sum, value);
    }
    sum
}

fn sum_as(first: &Value, total: i128) -> Result<Value, CellError>
    ensures { result ≡ spec.sum_as first.now total }
{
    match first {
        Value::Int(_) => Ok(Value::Int(in_range(total)?)),
        Value::Fixed(_) => Ok(Value::Fixed(in_range(total)?)),
        Value::Null | Value::Bool(_) | Value::Text(_) => Err(CellError::TypeFault),
    }
}

fn sum(values: &[Value]) -> Result<Value, CellError>
    ensures { result ≡ spec.sum_of values.now }
{
    match values.first() {
        None => Ok(Value::Null),
        Some(first) => sum_as(first, total(values)),
    }
}

fn least(alloc: Global, values: &[Value]) -> Result<Value, NoMemory>
    ensures { IfOk result (λ v. v ≡ spec.least_of values.now) }
{
    match values {
        [] => Ok(Value::Null),
        [first, rest @ ..] => {
            let mut best = first;
            for value in rest {
                if compare(value, best).is_lt() {
                    best = value;
                }
            }
            best.copy(alloc)
        }
    }
}

fn greatest(alloc: Global, values: &[Value]) -> Result<Value, NoMemory>
    ensures { IfOk result (λ v. v ≡ spec.greatest_of values.now) }
{
    match values {
        [] => Ok(Value::Null),
        [first, rest @ ..] => {
            let mut best = first;
            for value in rest {
                if compare(best, value).is_lt() {
                    best = value;
                }
            }
            best.copy(alloc)
        }
    }
}

fn of_not_null(alloc: Global, op: Aggregate, values: &[Value]) -> Result<Value, EvalFault>
    ensures { Gives result (spec.of_not_null op values.now) }
{
    match op {
        Aggregate::Count => Ok(Value::Int(values.len() as i64)),
        Aggregate::Sum => Ok(sum(values)?),
        Aggregate::Min => Ok(least(alloc, values)?),
        Aggregate::Max => Ok(greatest(alloc, values)?),
    }
}

/// What an aggregate gives on the values of a group, of which those that are NULL don't count.
///
/// - Error: at SUM `Overflow` exactly where the total isn't in an i64, `TypeFault` where the values are no numbers.
pub fn aggregated(alloc: Global, op: Aggregate, values: Values) -> Result<Value, EvalFault>
    ensures { Gives result (spec.aggregate_of op values) }
{
    let values = not_null(alloc, values)?;
    of_not_null(alloc, op, values.as_slice())
}
