//! Numbers, NULL, truth and aggregates at their borders. Expected values are worked out by hand from
//! docs/EXPRESSIONS.md.
//!
//! What other test modules call has no contract: tests look at what they get.
use crate::{
    Aggregate, aggregated, binary, binary_in_place, decides, equal, is_true, like, negated_if,
    null_test, unary,
};
use cell_errors::{CellError, EvalFault};
use expr_lang::{BinaryOp, UnaryOp};
use std::alloc::Global;
use std::process::Abort;
use value_types::{ListOf, NoMemory, Value, Values};

pub(crate) fn is(outcome: Result<Value, EvalFault>, want: &Value) -> bool {
    match outcome {
        Ok(value) => value == *want,
        Err(_) => false,
    }
}

pub(crate) fn fails(outcome: Result<Value, EvalFault>, want: CellError) -> bool {
    match outcome {
        Err(EvalFault::Error(error)) => error == want,
        _ => false,
    }
}

#[test]
fn ints_are_cut_toward_zero(rt: HostRuntime) {
    let alloc = rt.alloc();
    for (op, a, b, want) in [
        (BinaryOp::Divide, 7, 2, 3),
        (BinaryOp::Divide, -7, 2, -3),
        (BinaryOp::Divide, 7, -2, -3),
        (BinaryOp::Remainder, 7, 2, 1),
        (BinaryOp::Remainder, -7, 2, -1),
        (BinaryOp::Remainder, 7, -2, 1),
        (BinaryOp::Remainder, i64::MIN, -1, 0),
        (BinaryOp::Add, i64::MAX, 0, i64::MAX),
        (BinaryOp::Subtract, i64::MIN, 0, i64::MIN),
        (BinaryOp::Multiply, i64::MIN, 1, i64::MIN),
        (
            BinaryOp::Multiply,
            3_037_000_499,
            3_037_000_499,
            9_223_372_030_926_249_001,
        ),
    ] {
        let got = binary(alloc, op, Value::Int(a), &Value::Int(b));
        assert!(rt; is(got, &Value::Int(want)), "at {a} {b}");
    }
}

#[test]
fn ints_end_at_64_bits(rt: HostRuntime) {
    let alloc = rt.alloc();
    for (op, a, b, want) in [
        (BinaryOp::Add, i64::MAX, 1, CellError::Overflow),
        (BinaryOp::Subtract, i64::MIN, 1, CellError::Overflow),
        (
            BinaryOp::Multiply,
            3_037_000_500,
            3_037_000_500,
            CellError::Overflow,
        ),
        (BinaryOp::Multiply, i64::MIN, -1, CellError::Overflow),
        (BinaryOp::Divide, i64::MIN, -1, CellError::Overflow),
        (BinaryOp::Divide, 1, 0, CellError::ZeroDivisor),
        (BinaryOp::Remainder, 1, 0, CellError::ZeroDivisor),
    ] {
        let got = binary(alloc, op, Value::Int(a), &Value::Int(b));
        assert!(rt; fails(got, want), "at {a} {b}");
    }
    let least = unary(alloc, UnaryOp::Minus, &Value::Int(i64::MIN));
    assert!(rt; fails(least, CellError::Overflow));
    let size = unary(alloc, UnaryOp::Abs, &Value::Fixed(i64::MIN));
    assert!(rt; fails(size, CellError::Overflow));
    assert!(rt; is(unary(alloc, UnaryOp::Abs, &Value::Int(-5)), &Value::Int(5)));
    assert!(rt;
        is(
            unary(alloc, UnaryOp::Minus, &Value::Fixed(5)),
            &Value::Fixed(-5)
        )
    );
}

#[test]
fn fixeds_keep_four_decimals(rt: HostRuntime) {
    let alloc = rt.alloc();
    for (op, a, b, want) in [
        // 1.5 * 1.5 = 2.25
        (BinaryOp::Multiply, 15_000, 15_000, 22_500),
        // 0.0001 * 0.5 and -0.0001 * 0.9999 are cut to 0
        (BinaryOp::Multiply, 1, 5_000, 0),
        (BinaryOp::Multiply, -1, 9_999, 0),
        // -1.5 * 0.0003 = -0.00045
        (BinaryOp::Multiply, -15_000, 3, -4),
        // 2 / 3 = 0.6666 and -2 / 3 = -0.6666
        (BinaryOp::Divide, 20_000, 30_000, 6_666),
        (BinaryOp::Divide, -20_000, 30_000, -6_666),
        (BinaryOp::Add, 15_000, 2_500, 17_500),
        (BinaryOp::Subtract, 15_000, 2_500, 12_500),
    ] {
        let got = binary(alloc, op, Value::Fixed(a), &Value::Fixed(b));
        assert!(rt; is(got, &Value::Fixed(want)), "at {a} {b}");
    }
    for (op, a, b, want) in [
        (BinaryOp::Add, i64::MAX, 1, CellError::Overflow),
        (BinaryOp::Multiply, i64::MAX, 10_001, CellError::Overflow),
        (BinaryOp::Divide, i64::MAX, 9_999, CellError::Overflow),
        (BinaryOp::Divide, 1, 0, CellError::ZeroDivisor),
        (BinaryOp::Remainder, 20_000, 10_000, CellError::TypeFault),
    ] {
        let got = binary(alloc, op, Value::Fixed(a), &Value::Fixed(b));
        assert!(rt; fails(got, want), "at {a} {b}");
    }
}

#[test]
fn an_int_beside_a_fixed_is_widened(rt: HostRuntime) {
    let alloc = rt.alloc();
    let sum = binary(alloc, BinaryOp::Add, Value::Int(1), &Value::Fixed(5_000));
    assert!(rt; is(sum, &Value::Fixed(15_000)));
    let last = Value::Int(922_337_203_685_477);
    let widest = binary(alloc, BinaryOp::Add, last, &Value::Fixed(0));
    assert!(rt; is(widest, &Value::Fixed(9_223_372_036_854_770_000)));
    // Widening comes before the divisor is looked at.
    for (op, divisor) in [(BinaryOp::Add, 0), (BinaryOp::Divide, 0)] {
        let beyond = Value::Int(922_337_203_685_478);
        let got = binary(alloc, op, beyond, &Value::Fixed(divisor));
        assert!(rt; fails(got, CellError::Overflow));
    }
    // A comparison has no such end.
    for (op, want) in [
        (BinaryOp::Greater, true),
        (BinaryOp::AtLeast, true),
        (BinaryOp::Equal, false),
        (BinaryOp::NotEqual, true),
        (BinaryOp::Less, false),
        (BinaryOp::AtMost, false),
    ] {
        let got = binary(alloc, op, Value::Int(i64::MAX), &Value::Fixed(i64::MAX));
        assert!(rt; is(got, &Value::Bool(want)));
    }
    assert!(rt;
        matches!(
            equal(&Value::Int(2), &Value::Fixed(20_000)),
            Ok(Value::Bool(true))
        )
    );
}

#[test]
fn null_goes_through_the_operators(rt: HostRuntime) {
    let alloc = rt.alloc();
    for op in [
        BinaryOp::Equal,
        BinaryOp::NotEqual,
        BinaryOp::Less,
        BinaryOp::AtMost,
        BinaryOp::Greater,
        BinaryOp::AtLeast,
        BinaryOp::Concat,
        BinaryOp::Add,
        BinaryOp::Subtract,
        BinaryOp::Multiply,
        BinaryOp::Divide,
        BinaryOp::Remainder,
    ] {
        assert!(rt; is(binary(alloc, op, Value::Null, &Value::Int(0)), &Value::Null));
        assert!(rt; is(binary(alloc, op, Value::Int(1), &Value::Null), &Value::Null));
        assert!(rt; is(binary(alloc, op, Value::Null, &Value::Null), &Value::Null));
    }
    for op in [
        UnaryOp::Not,
        UnaryOp::Minus,
        UnaryOp::Length,
        UnaryOp::Trim,
        UnaryOp::Abs,
    ] {
        assert!(rt; is(unary(alloc, op, &Value::Null), &Value::Null));
    }
    assert!(rt; is(like(alloc, &Value::Null, &Value::Null), &Value::Null));
}

#[test]
fn the_answer_takes_the_place_of_the_left_side(rt: HostRuntime) {
    let alloc = rt.alloc();
    let mut place = Value::Int(7);
    let answer = binary_in_place(alloc, BinaryOp::Subtract, &mut place, &Value::Int(9));
    assert!(rt; answer.is_ok() && place == Value::Int(-2));
    let answer = binary_in_place(alloc, BinaryOp::Multiply, &mut place, &Value::Fixed(15_000));
    assert!(rt; answer.is_ok() && place == Value::Fixed(-30_000));
}

#[test]
fn null_is_told_from_values_and_types_come_first(rt: HostRuntime) {
    let alloc = rt.alloc();
    let sum = binary(alloc, BinaryOp::Add, Value::Null, &Value::Bool(true));
    assert!(rt; fails(sum, CellError::TypeFault));
    let rest = binary(alloc, BinaryOp::Remainder, Value::Fixed(1), &Value::Null);
    assert!(rt; fails(rest, CellError::TypeFault));
    let pattern = like(alloc, &Value::Null, &Value::Int(1));
    assert!(rt; fails(pattern, CellError::TypeFault));
    assert!(rt; matches!(null_test(false, &Value::Null), Value::Bool(true)));
    assert!(rt; matches!(null_test(true, &Value::Null), Value::Bool(false)));
    assert!(rt; matches!(is_true(&Value::Null), Ok(false)));
}

// The answer of AND or OR for truths, in which `None` is NULL.
fn joined(
    alloc: Global,
    op: BinaryOp,
    a: Option<bool>,
    b: Option<bool>,
) -> Result<Value, EvalFault> {
    let a = a.map_or(Value::Null, Value::Bool);
    let b = b.map_or(Value::Null, Value::Bool);
    if decides(op, &a)? {
        return Ok(a);
    }
    binary(alloc, op, a, &b)
}

#[test]
fn and_and_or_have_three_values(rt: HostRuntime) {
    let alloc = rt.alloc();
    let (yes, no) = (Some(true), Some(false));
    for (a, b, and, or) in [
        (yes, yes, yes, yes),
        (yes, no, no, yes),
        (yes, None, None, yes),
        (no, yes, no, yes),
        (no, no, no, no),
        (no, None, no, None),
        (None, yes, None, yes),
        (None, no, no, None),
        (None, None, None, None),
    ] {
        let and = and.map_or(Value::Null, Value::Bool);
        assert!(rt; is(joined(alloc, BinaryOp::And, a, b), &and));
        let or = or.map_or(Value::Null, Value::Bool);
        assert!(rt; is(joined(alloc, BinaryOp::Or, a, b), &or));
    }
    assert!(rt;
        matches!(
            decides(BinaryOp::And, &Value::Int(1)),
            Err(CellError::TypeFault)
        )
    );
    let wrong = binary(alloc, BinaryOp::Or, Value::Bool(false), &Value::Int(1));
    assert!(rt; fails(wrong, CellError::TypeFault));
    assert!(rt; matches!(negated_if(true, Value::Bool(true)), Ok(Value::Bool(false))));
}

fn fixeds(alloc: Global, counts: [i64; 3]) -> Result<Values, NoMemory> {
    let mut values = ListOf::new(alloc)?;
    values.push(alloc, Value::Null)?;
    for n in counts {
        values.push(alloc, Value::Fixed(n))?;
    }
    Ok(values)
}

fn over(alloc: Global, op: Aggregate, counts: [i64; 3]) -> Result<Value, EvalFault> {
    aggregated(alloc, op, fixeds(alloc, counts)?)
}

#[test]
fn aggregates_skip_null(rt: HostRuntime) {
    let alloc = rt.alloc();
    let counts = [5, i64::MAX, -i64::MAX];
    assert!(rt; is(over(alloc, Aggregate::Count, counts), &Value::Int(3)));
    // The sum passes 64 bits on its way and comes back.
    assert!(rt; is(over(alloc, Aggregate::Sum, counts), &Value::Fixed(5)));
    assert!(rt;
        is(
            over(alloc, Aggregate::Min, counts),
            &Value::Fixed(-i64::MAX)
        )
    );
    assert!(rt; is(over(alloc, Aggregate::Max, counts), &Value::Fixed(i64::MAX)));
    let far = over(alloc, Aggregate::Sum, [i64::MAX, 1, 0]);
    assert!(rt; fails(far, CellError::Overflow));
    for (op, want) in [
        (Aggregate::Count, Value::Int(0)),
        (Aggregate::Sum, Value::Null),
        (Aggregate::Min, Value::Null),
        (Aggregate::Max, Value::Null),
    ] {
        match ListOf::new(alloc) {
            Ok(none) => assert!(rt; is(aggregated(alloc, op, none), &want)),
            Err(_) => assert!(rt; false, "no memory"),
        }
    }
}
