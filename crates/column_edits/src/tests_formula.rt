//! Formulas over the rows of the other tests, and at the limit of text.
//!
//! What other test modules call has no contract: tests look at what they get.
ghost use Rattle.std.specs.Prelude.{IfOk};
ghost use Rattle.dataset_types.specs.Tables.{Distinct, row_ids};

use crate::formula;
use crate::tests::{columns, gives, named, prices, shared};
use cell_errors::EvalFault;
use dataset_types::{
    Marked, MarkedValues, Picks, Row, Rows, Table, law_of_numbers, names_distinct, rows_fit,
};
use expr_lang::{BinaryOp, Expr};
use sqlite_items::Boxed;
use std::alloc::Global;
use std::process::Abort;
use std::test::*;
use value_types::{ArcOf, ColumnType, Name, NoMemory, RowId, Value, Words};

pub(crate) fn column(qualifier: Option<Name>, name: &str) -> Result<Expr, NoMemory> {
    Ok(Expr::Column {
        qualifier,
        name: named(name)?,
    })
}

fn binary(alloc: Global, op: BinaryOp, left: Expr, right: i64) -> Result<Expr, NoMemory> {
    let left = Boxed::new(alloc, left)?;
    let right = Boxed::new(alloc, Expr::Literal(Value::Int(right)))?;
    Ok(Expr::Binary(op, left, right))
}

fn by(
    rt: &impl Abort,
    alloc: Global,
    name: &str,
    of: &str,
    op: BinaryOp,
    right: i64,
) -> Result<ArcOf<Table>, EvalFault> {
    let expr = binary(alloc, op, column(None, of)?, right)?;
    formula(
        alloc,
        &prices(rt, alloc)?,
        &named(name)?,
        &expr,
        &Picks::new(alloc)?,
        1,
    )
}

fn of_qualified(rt: &impl Abort, alloc: Global) -> Result<ArcOf<Table>, EvalFault> {
    let expr = column(Some(named("p")?), "price")?;
    formula(
        alloc,
        &prices(rt, alloc)?,
        &named("price")?,
        &expr,
        &Picks::new(alloc)?,
        1,
    )
}

#[test]
fn a_column_is_computed_row_by_row(rt: HostRuntime) {
    let alloc = rt.alloc();
    for (name, of, op, right, want) in [
        (
            "n",
            "n",
            BinaryOp::Add,
            1,
            "n:int price:fixed note:text | #1 4 2.5000 \"x\" | ?#2 1000000000000001 ~null \"y\" open",
        ),
        (
            "price",
            "price",
            BinaryOp::Add,
            1,
            "n:int price:fixed note:text | #1 3 3.5000 \"x\" | ?#2 1000000000000000 ~null \"y\" open",
        ),
        (
            "price",
            "price",
            BinaryOp::Add,
            0,
            "n:int price:fixed note:text | #1 3 2.5000 \"x\" | ?#2 1000000000000000 ~null \"y\" open",
        ),
        (
            "price",
            "n",
            BinaryOp::Remainder,
            2,
            "n:int price:fixed note:text | #1 3 1.0000 \"x\" | ?#2 1000000000000000 0.0000 \"y\" open",
        ),
        (
            "note",
            "note",
            BinaryOp::Concat,
            1,
            "n:int price:fixed note:text | #1 3 2.5000 \"x1\" | ?#2 1000000000000000 ~null \"y1\" open",
        ),
        ("price", "n", BinaryOp::Add, 0, "Overflow"),
        ("n", "n", BinaryOp::Divide, 0, "ZeroDivisor"),
        ("n", "price", BinaryOp::Add, 1, "TypeFault"),
        ("note", "n", BinaryOp::Divide, 0, "TypeFault"),
        ("n", "note", BinaryOp::Add, 1, "TypeFault"),
        ("n", "z", BinaryOp::Add, 1, "NoColumn"),
        ("z", "note", BinaryOp::Add, 1, "NoColumn"),
    ] {
        assert!(rt;
            gives(alloc, &by(&rt, alloc, name, of, op, right), want),
            "{name} by {of}"
        );
    }
    assert!(rt; gives(alloc, &of_qualified(&rt, alloc), "NoColumn"));
}

pub(crate) fn text_of(alloc: Global, bytes: u32) -> Result<Marked, NoMemory> {
    let mut text = Words::new(alloc)?;
    for _ in 0..bytes {
        text.push_char(alloc, 'x')?;
    }
    Ok(Marked {
        value: Value::Text(text),
        marked: false,
    })
}

pub(crate) fn empty(alloc: Global) -> Result<Marked, NoMemory> {
    text_of(alloc, 0)
}

// One row, whose id takes two bytes, with a text of so many bytes and an empty one.
fn row_of_text(alloc: Global, bytes: u32) -> Result<Rows, NoMemory>
    ensures { IfOk result (λ rows. Distinct (row_ids rows)) }
{
    let mut values = MarkedValues::new(alloc)?;
    values.push(alloc, text_of(alloc, bytes)?)?;
    values.push(alloc, empty(alloc)?)?;
    let mut rows = Rows::new(alloc)?;
    rows.push(
        alloc,
        Row {
            id: RowId::Rec(1),
            sure: true,
            values,
        },
    )?;
    law_of_numbers(&rows);
    Ok(rows)
}

fn long_text(rt: &impl Abort, alloc: Global, bytes: u32) -> Result<ArcOf<Table>, EvalFault> {
    let columns = columns(alloc, &[("a", ColumnType::Text), ("b", ColumnType::Text)])?;
    let rows = row_of_text(alloc, bytes)?;
    assert!(rt; names_distinct(columns.as_slice()));
    assert!(rt; rows_fit(columns.as_slice(), rows.as_slice()));
    shared(alloc, Table::new(alloc, columns, rows, true, false))
}

// A column with the values of a column.
fn copied(
    alloc: Global,
    table: &ArcOf<Table>,
    from: &str,
    to: &str,
) -> Result<ArcOf<Table>, EvalFault> {
    let expr = column(None, from)?;
    formula(alloc, table, &named(to)?, &expr, &Picks::new(alloc)?, 1)
}

fn doubled(rt: &impl Abort, alloc: Global, bytes: u32) -> Result<ArcOf<Table>, EvalFault> {
    copied(alloc, &long_text(rt, alloc, bytes)?, "a", "b")
}

#[test]
fn what_a_formula_makes_is_within_the_limit_of_text(rt: HostRuntime) {
    let alloc = rt.alloc();
    assert!(rt; doubled(&rt, alloc, 524_287).is_ok());
    assert!(rt; gives(alloc, &doubled(&rt, alloc, 524_288), "TooLarge"));
}
