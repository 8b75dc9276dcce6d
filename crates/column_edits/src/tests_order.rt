//! Ints at both ends of a Fixed column, and which of several errors of a formula is told.
ghost use Rattle.std.specs.Prelude.{IfOk};
ghost use Rattle.dataset_types.specs.Tables.{Distinct, row_ids};

use crate::formula;
use crate::tests::{columns, gives, named, prices, shared};
use crate::tests_formula::{column, empty, text_of};
use cell_errors::EvalFault;
use dataset_types::{
    MarkedValues, Picks, Row, Rows, Table, law_of_numbers, names_distinct, rows_fit,
};
use expr_lang::{Arm, Arms, BinaryOp, Expr, UnaryOp};
use sqlite_items::Boxed;
use std::alloc::Global;
use std::process::Abort;
use std::test::*;
use value_types::{ArcOf, ColumnType, NoMemory, RowId, Value};

fn number(n: i64) -> Expr {
    Expr::Literal(Value::Int(n))
}

fn by(alloc: Global, op: BinaryOp, left: Expr, right: Expr) -> Result<Expr, NoMemory> {
    let left = Boxed::new(alloc, left)?;
    let right = Boxed::new(alloc, right)?;
    Ok(Expr::Binary(op, left, right))
}

fn filled(
    alloc: Global,
    table: &ArcOf<Table>,
    name: &str,
    expr: &Expr,
) -> Result<ArcOf<Table>, EvalFault> {
    formula(alloc, table, &named(name)?, expr, &Picks::new(alloc)?, 1)
}

#[test]
fn an_int_goes_into_a_fixed_column_where_it_widens(rt: HostRuntime) -> Result<(), Fail> {
    let alloc = rt.alloc();
    let table = prices(&rt, alloc).expect(&rt, "memory");
    for (n, want) in [
        (
            922_337_203_685_477,
            "n:int price:fixed note:text | #1 3 922337203685477.0000 \"x\" | ?#2 1000000000000000 922337203685477.0000 \"y\" open",
        ),
        (922_337_203_685_478, "Overflow"),
        (
            -922_337_203_685_477,
            "n:int price:fixed note:text | #1 3 -922337203685477.0000 \"x\" | ?#2 1000000000000000 -922337203685477.0000 \"y\" open",
        ),
        (-922_337_203_685_478, "Overflow"),
    ] {
        assert!(rt;
            gives(alloc, &filled(alloc, &table, "price", &number(n)), want),
            "{n}"
        );
    }
    Ok(())
}

// What is 3 in the first row and 1000000000000000 in the second, or the other way round.
fn count(alloc: Global, turned: bool) -> Result<Expr, NoMemory> {
    let n = column(None, "n")?;
    if turned {
        by(alloc, BinaryOp::Subtract, number(1_000_000_000_000_003), n)
    } else {
        Ok(n)
    }
}

// The square of that, which is too great for one row, divided by what is 0 in the other.
fn two_errors(alloc: Global, turned: bool) -> Result<Expr, NoMemory> {
    let square = by(
        alloc,
        BinaryOp::Multiply,
        count(alloc, turned)?,
        count(alloc, turned)?,
    )?;
    let zero = by(alloc, BinaryOp::Subtract, count(alloc, turned)?, number(3))?;
    by(alloc, BinaryOp::Divide, square, zero)
}

fn of_two_errors(
    rt: &impl Abort,
    alloc: Global,
    name: &str,
    turned: bool,
) -> Result<ArcOf<Table>, EvalFault> {
    let expr = two_errors(alloc, turned)?;
    filled(alloc, &prices(rt, alloc)?, name, &expr)
}

#[test]
fn the_error_of_the_first_row_is_told_and_a_type_fault_before_it(rt: HostRuntime) {
    let alloc = rt.alloc();
    for (name, turned, want) in [
        ("n", false, "ZeroDivisor"),
        ("n", true, "Overflow"),
        ("note", false, "TypeFault"),
        ("note", true, "TypeFault"),
        ("z", true, "NoColumn"),
    ] {
        assert!(rt;
            gives(alloc, &of_two_errors(&rt, alloc, name, turned), want),
            "{name} {turned}"
        );
    }
}

// A row of a text of so many bytes and an empty one.
fn texts(alloc: Global, bytes: u32) -> Result<MarkedValues, NoMemory> {
    let mut values = MarkedValues::new(alloc)?;
    values.push(alloc, text_of(alloc, bytes)?)?;
    values.push(alloc, empty(alloc)?)?;
    Ok(values)
}

fn two_rows(alloc: Global) -> Result<Rows, NoMemory>
    ensures { IfOk result (λ rows. Distinct (row_ids rows)) }
{
    let long = texts(alloc, 524_288)?;
    let short = texts(alloc, 0)?;
    let mut rows = Rows::new(alloc)?;
    rows.push(
        alloc,
        Row {
            id: RowId::Rec(1),
            sure: true,
            values: long,
        },
    )?;
    rows.push(
        alloc,
        Row {
            id: RowId::Rec(2),
            sure: true,
            values: short,
        },
    )?;
    law_of_numbers(&rows);
    Ok(rows)
}

// Half of the text that a dataset may hold, in the first of two rows.
fn half_full(rt: &impl Abort, alloc: Global) -> Result<ArcOf<Table>, EvalFault> {
    let columns = columns(alloc, &[("a", ColumnType::Text), ("b", ColumnType::Text)])?;
    let rows = two_rows(alloc)?;
    assert!(rt; names_distinct(columns.as_slice()));
    assert!(rt; rows_fit(columns.as_slice(), rows.as_slice()));
    shared(alloc, Table::new(alloc, columns, rows, true, false))
}

fn length(alloc: Global) -> Result<Expr, NoMemory> {
    Ok(Expr::Unary(UnaryOp::Length, Boxed::new(alloc, column(None, "a")?)?))
}

// The text of 1 divided by the length of a text.
fn divided(alloc: Global) -> Result<Expr, NoMemory> {
    let of = by(alloc, BinaryOp::Divide, number(1), length(alloc)?)?;
    let of = Boxed::new(alloc, of)?;
    let kind = ColumnType::Text;
    Ok(Expr::Cast { of, kind })
}

fn long_arm(alloc: Global) -> Result<Arm, NoMemory> {
    let condition = by(alloc, BinaryOp::Greater, length(alloc)?, number(0))?;
    let answer = column(None, "a")?;
    Ok(Arm { condition, answer })
}

// A text again where it isn't empty; else this.
fn again_or(alloc: Global, other: Expr) -> Result<Expr, NoMemory> {
    let mut arms = Arms::new(alloc)?;
    arms.push(alloc, long_arm(alloc)?)?;
    let otherwise = Some(Boxed::new(alloc, other)?);
    Ok(Expr::Case { arms, otherwise })
}

fn again(rt: &impl Abort, alloc: Global) -> Result<ArcOf<Table>, EvalFault> {
    let expr = again_or(alloc, column(None, "a")?)?;
    filled(alloc, &half_full(rt, alloc)?, "b", &expr)
}

fn again_and_divided(rt: &impl Abort, alloc: Global) -> Result<ArcOf<Table>, EvalFault> {
    let expr = again_or(alloc, divided(alloc)?)?;
    filled(alloc, &half_full(rt, alloc)?, "b", &expr)
}

#[test]
fn an_error_of_evaluation_is_told_before_the_limit(rt: HostRuntime) {
    let alloc = rt.alloc();
    assert!(rt; gives(alloc, &again(&rt, alloc), "TooLarge"));
    assert!(rt; gives(alloc, &again_and_divided(&rt, alloc), "ZeroDivisor"));
}
