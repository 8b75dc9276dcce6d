//! HAVING: marked conditions, NULL, and the order of its errors.
use crate::tests::{binary, column, divided, gives, grouped, int};
use crate::tests_marks::{Asked, Lines, closed, guessed_b, item, rel_of, sure, without_b};
use expr_lang::{BinaryOp, Expr};
use std::alloc::Global;
use std::process::Abort;
use std::test::*;
use value_types::NoMemory;

/// Whether the counts of the groups whose answer is more than a number are shown so.
fn keeps(
    rt: &impl Abort,
    alloc: Global,
    lines: Lines,
    keys: &[u32],
    (asked, number): (Asked, i64),
    want: &str,
) -> bool {
    let rel = rel_of(rt, alloc, lines);
    let Ok(left) = item(alloc, asked) else {
        return false;
    };
    match binary(alloc, BinaryOp::Greater, left, int(number)) {
        Ok(having) => {
            let answer = grouped(rt, alloc, rel, keys, Some(&having), Ok(Expr::CountAll));
            gives(alloc, &answer, want)
        }
        Err(_) => false,
    }
}

#[test]
fn having_over_a_marked_aggregate_opens_and_leaves_what_it_keeps_unsure(rt: HostRuntime) {
    let alloc = rt.alloc();
    let lines = closed(sure(1, 4), guessed_b(sure(1, 2)), sure(2, 7));
    assert!(rt;
        keeps(
            &rt,
            alloc,
            lines,
            &[1],
            (Asked::Sum, 5),
            "?[1] 2; [2] 1; open"
        )
    );
    assert!(rt; keeps(&rt, alloc, lines, &[1], (Asked::Sum, 6), "[2] 1; open"));
    assert!(rt; keeps(&rt, alloc, lines, &[1], (Asked::Key, 1), "[2] 1; "));
    assert!(rt; keeps(&rt, alloc, lines, &[], (Asked::Sum, 5), "?[] 3; open"));
    assert!(rt; keeps(&rt, alloc, lines, &[], (Asked::Sum, 20), "open"));
    assert!(rt; keeps(&rt, alloc, lines, &[], (Asked::CountAll, 2), "[] 3; "));
}

#[test]
fn having_that_is_null_keeps_no_group(rt: HostRuntime) {
    let alloc = rt.alloc();
    let none = without_b(sure(1, 0));
    let lines = closed(none, sure(2, 7), none);
    assert!(rt; keeps(&rt, alloc, lines, &[1], (Asked::Sum, 5), "[2] 1; "));
}

#[test]
fn the_items_of_a_group_that_having_drops_are_not_looked_at(rt: HostRuntime) {
    let alloc = rt.alloc();
    match is_one(alloc) {
        Ok(having) => {
            assert!(rt; gives(alloc, &divided(&rt, alloc, Some(&having)), "[1] 1; "));
        }
        Err(_) => assert!(rt; false),
    }
}

// a = 1
fn is_one(alloc: Global) -> Result<Expr, NoMemory> {
    binary(alloc, BinaryOp::Equal, column("a")?, int(1))
}

// 1 / a = 1 OR a, which divides by the key 0 and is no Bool of the key 2.
fn two_faults(alloc: Global) -> Result<Expr, NoMemory> {
    let ratio = binary(alloc, BinaryOp::Divide, int(1), column("a")?)?;
    let is_one = binary(alloc, BinaryOp::Equal, ratio, int(1))?;
    binary(alloc, BinaryOp::Or, is_one, column("a")?)
}

#[test]
fn errors_of_having_come_in_the_order_of_groups(rt: HostRuntime) {
    let alloc = rt.alloc();
    let rel = rel_of(&rt, alloc, closed(sure(2, 1), sure(0, 1), sure(2, 1)));
    match two_faults(alloc) {
        Ok(having) => {
            let count = Ok(Expr::CountAll);
            let answer = grouped(&rt, alloc, rel, &[1], Some(&having), count);
            assert!(rt; gives(alloc, &answer, "ZeroDivisor"));
        }
        Err(_) => assert!(rt; false),
    }
}
