//! Marks of each step: values that are marked or not in rows that are sure or not, of relations that are open or loose.
ghost use Rattle.std.specs.Prelude.{IfOk};
ghost use Rattle.dataset_types.specs.Tables.{Distinct, row_ids};

use crate::tests::{above_two, binary, by_price, column, columns, gives, one_item, values};
use crate::{limit, project, types_agree, union_all};
use cell_errors::EvalFault;
use dataset_types::{Picks, Row, Rows, Table, all_sure, law_of_numbers, names_distinct, rows_fit};
use expr_lang::BinaryOp;
use relations::Rel;
use std::alloc::Global;
use std::process::Abort;
use std::test::*;
use value_types::{NoMemory, RowId, Value};

/// A price in ten-thousandths, and what is uncertain of it and of its row.
#[derive(Clone, Copy)]
struct Price {
    count: Option<i64>,
    marked: bool,
    sure: bool,
}

/// Two rows with a price each, and the flags.
#[derive(Clone, Copy)]
struct Prices {
    first: Price,
    second: Price,
    is_open: bool,
    is_loose: bool,
}

const NULL: Price = Price {
    count: None,
    marked: false,
    sure: true,
};

const ONE: Price = Price {
    count: Some(10_000),
    ..NULL
};

const THREE: Price = Price {
    count: Some(30_000),
    ..NULL
};

fn guessed(price: Price) -> Price {
    Price {
        marked: true,
        ..price
    }
}

fn unsure(price: Price) -> Price {
    Price {
        sure: false,
        ..price
    }
}

fn closed(first: Price, second: Price) -> Prices {
    Prices {
        first,
        second,
        is_open: false,
        is_loose: false,
    }
}

fn open(first: Price, second: Price) -> Prices {
    Prices {
        is_open: true,
        ..closed(first, second)
    }
}

fn loose(prices: Prices) -> Prices {
    Prices {
        is_loose: true,
        ..prices
    }
}

fn value_of(price: Price) -> Value {
    match price.count {
        None => Value::Null,
        Some(count) => Value::Fixed(count),
    }
}

fn rows_of(alloc: Global, prices: Prices) -> Result<Rows, NoMemory>
    ensures { IfOk result (λ rows. Distinct (row_ids rows)) }
{
    let mut rows = Rows::new(alloc)?;
    let first = Row {
        id: RowId::Rec(1),
        sure: prices.first.sure,
        values: values(alloc, 1, value_of(prices.first), prices.first.marked)?,
    };
    rows.push(alloc, first)?;
    let second = Row {
        id: RowId::Rec(2),
        sure: prices.second.sure,
        values: values(alloc, 2, value_of(prices.second), prices.second.marked)?,
    };
    rows.push(alloc, second)?;
    law_of_numbers(&rows);
    Ok(rows)
}

fn rel_of(rt: &impl Abort, alloc: Global, prices: Prices) -> Result<Rel, EvalFault> {
    let columns = columns(alloc)?;
    let rows = rows_of(alloc, prices)?;
    assert!(rt; names_distinct(columns.as_slice()));
    assert!(rt; rows_fit(columns.as_slice(), rows.as_slice()));
    assert!(rt; prices.is_open || all_sure(rows.as_slice()));
    match Table::new(alloc, columns, rows, prices.is_open, prices.is_loose) {
        Ok(table) => Ok(Rel::of_table(alloc, &table, &None)?),
        Err(_) => Err(EvalFault::NoMemory),
    }
}

/// Whether the rows whose price is above two are shown so.
fn above(rt: &impl Abort, alloc: Global, prices: Prices, want: &str) -> bool {
    match rel_of(rt, alloc, prices) {
        Ok(rel) => gives(alloc, &above_two(alloc, rel), want),
        Err(_) => false,
    }
}

#[test]
fn where_opens_by_a_marked_condition_alone(rt: HostRuntime) {
    let alloc = rt.alloc();
    assert!(rt; above(&rt, alloc, closed(THREE, ONE), "#1 1 3.0000; "));
    assert!(rt; above(&rt, alloc, closed(NULL, THREE), "#2 2 3.0000; "));
    let taken = closed(guessed(THREE), ONE);
    assert!(rt; above(&rt, alloc, taken, "?#1 1 ~3.0000; open "));
    let dropped = closed(guessed(ONE), THREE);
    assert!(rt; above(&rt, alloc, dropped, "#2 2 3.0000; open "));
}

#[test]
fn where_leaves_unsure_rows_unsure(rt: HostRuntime) {
    let alloc = rt.alloc();
    let plain = open(unsure(THREE), THREE);
    assert!(rt; above(&rt, alloc, plain, "?#1 1 3.0000; #2 2 3.0000; open "));
    let taken = open(unsure(guessed(THREE)), THREE);
    assert!(rt; above(&rt, alloc, taken, "?#1 1 ~3.0000; #2 2 3.0000; open "));
    let dropped = open(unsure(guessed(ONE)), THREE);
    assert!(rt; above(&rt, alloc, dropped, "#2 2 3.0000; open "));
}

#[test]
fn where_leaves_the_order_as_loose_as_it_was(rt: HostRuntime) {
    let alloc = rt.alloc();
    let plain = loose(closed(THREE, ONE));
    assert!(rt; above(&rt, alloc, plain, "#1 1 3.0000; loose "));
    let dropped = loose(closed(guessed(ONE), THREE));
    assert!(rt; above(&rt, alloc, dropped, "#2 2 3.0000; open loose "));
}

/// Whether the rows in order of price are shown so.
fn sorts(rt: &impl Abort, alloc: Global, prices: Prices, descending: bool, want: &str) -> bool {
    match rel_of(rt, alloc, prices) {
        Ok(rel) => gives(alloc, &by_price(alloc, rel, descending), want),
        Err(_) => false,
    }
}

#[test]
fn order_by_is_loose_by_the_marked_key_of_a_sure_row(rt: HostRuntime) {
    let alloc = rt.alloc();
    let plain = closed(THREE, ONE);
    let by_a_guess = closed(guessed(THREE), ONE);
    let unsure_guess = open(unsure(guessed(THREE)), ONE);
    assert!(rt; sorts(&rt, alloc, plain, false, "#2 2 1.0000; #1 1 3.0000; "));
    assert!(rt;
        sorts(
            &rt,
            alloc,
            by_a_guess,
            false,
            "#2 2 1.0000; #1 1 ~3.0000; loose "
        )
    );
    assert!(rt;
        sorts(
            &rt,
            alloc,
            unsure_guess,
            false,
            "#2 2 1.0000; ?#1 1 ~3.0000; open "
        )
    );
    assert!(rt;
        sorts(
            &rt,
            alloc,
            loose(plain),
            false,
            "#2 2 1.0000; #1 1 3.0000; loose "
        )
    );
}

#[test]
fn order_by_keeps_ties_and_places_null(rt: HostRuntime) {
    let alloc = rt.alloc();
    let ties = closed(ONE, ONE);
    let nulls = closed(ONE, NULL);
    let in_order = "#1 1 1.0000; #2 2 1.0000; ";
    assert!(rt; sorts(&rt, alloc, ties, false, in_order));
    assert!(rt; sorts(&rt, alloc, ties, true, in_order));
    assert!(rt; sorts(&rt, alloc, nulls, false, "#2 2 null; #1 1 1.0000; "));
    assert!(rt; sorts(&rt, alloc, nulls, true, "#1 1 1.0000; #2 2 null; "));
}

/// Whether the first rows are shown so.
fn first(rt: &impl Abort, alloc: Global, prices: Prices, count: u64, want: &str) -> bool {
    match rel_of(rt, alloc, prices) {
        Ok(rel) => gives(alloc, &limit(alloc, rel, count), want),
        Err(_) => false,
    }
}

#[test]
fn limit_of_a_certain_relation_is_certain(rt: HostRuntime) {
    let alloc = rt.alloc();
    let prices = closed(THREE, guessed(ONE));
    assert!(rt; first(&rt, alloc, prices, 0, ""));
    assert!(rt; first(&rt, alloc, prices, 1, "#1 1 3.0000; "));
    assert!(rt; first(&rt, alloc, prices, 3, "#1 1 3.0000; #2 2 ~1.0000; "));
}

#[test]
fn limit_of_an_open_or_loose_relation_leaves_no_row_sure(rt: HostRuntime) {
    let alloc = rt.alloc();
    let open = open(THREE, unsure(ONE));
    let loose = loose(closed(THREE, ONE));
    assert!(rt; first(&rt, alloc, open, 0, "open "));
    assert!(rt; first(&rt, alloc, open, 3, "?#1 1 3.0000; ?#2 2 1.0000; open "));
    assert!(rt; first(&rt, alloc, loose, 1, "?#1 1 3.0000; open loose "));
    assert!(rt;
        first(
            &rt,
            alloc,
            loose,
            3,
            "?#1 1 3.0000; ?#2 2 1.0000; open loose "
        )
    );
}

fn united(rt: &impl Abort, alloc: Global, a: Prices, b: Prices) -> Result<Rel, EvalFault> {
    let left = rel_of(rt, alloc, a)?;
    let right = rel_of(rt, alloc, b)?;
    assert!(rt; types_agree(left.columns().as_slice(), right.columns().as_slice()));
    union_all(alloc, left, right)
}

/// Whether the rows of both are shown so.
fn unites(rt: &impl Abort, alloc: Global, a: Prices, b: Prices, want: &str) -> bool {
    gives(alloc, &united(rt, alloc, a, b), want)
}

#[test]
fn a_union_is_open_or_loose_where_a_side_is(rt: HostRuntime) {
    let alloc = rt.alloc();
    let plain = closed(THREE, ONE);
    let all = "<#1 1 3.0000; <#2 2 1.0000; >#1 1 3.0000; >#2 2 1.0000; ";
    let all_open = "<#1 1 3.0000; <#2 2 1.0000; >#1 1 3.0000; >#2 2 1.0000; open ";
    let all_loose = "<#1 1 3.0000; <#2 2 1.0000; >#1 1 3.0000; >#2 2 1.0000; loose ";
    assert!(rt; unites(&rt, alloc, plain, plain, all));
    assert!(rt; unites(&rt, alloc, open(THREE, ONE), plain, all_open));
    assert!(rt; unites(&rt, alloc, plain, open(THREE, ONE), all_open));
    assert!(rt; unites(&rt, alloc, loose(plain), plain, all_loose));
    assert!(rt; unites(&rt, alloc, plain, loose(plain), all_loose));
}

#[test]
fn a_union_keeps_the_marks_of_its_rows(rt: HostRuntime) {
    let alloc = rt.alloc();
    let doubted = open(unsure(THREE), guessed(ONE));
    let want = "<#1 1 1.0000; <#2 2 null; ?>#1 1 3.0000; >#2 2 ~1.0000; open ";
    assert!(rt; unites(&rt, alloc, closed(ONE, NULL), doubted, want));
}

fn halves(rt: &impl Abort, alloc: Global, prices: Prices) -> Result<Rel, EvalFault> {
    let rel = rel_of(rt, alloc, prices)?;
    let half = binary(alloc, BinaryOp::Divide, column("price")?, 2)?;
    let items = one_item(alloc, half)?;
    project(alloc, &rel, &items, &Picks::new(alloc)?, 1)
}

#[test]
fn items_leave_rows_and_flags_as_they_are(rt: HostRuntime) {
    let alloc = rt.alloc();
    let prices = loose(open(unsure(THREE), guessed(ONE)));
    let kept = halves(&rt, alloc, prices);
    assert!(rt; gives(alloc, &kept, "?#1 1.5000; #2 ~0.5000; open loose "));
    let plain = halves(&rt, alloc, closed(THREE, ONE));
    assert!(rt; gives(alloc, &plain, "#1 1.5000; #2 0.5000; "));
}
