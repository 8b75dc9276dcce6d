//! Marks of groups and of DISTINCT: marked keys and values, unsure rows, and no rows.
//!
//! What other test modules call has no contract: tests look at what they get.
ghost use Rattle.std.specs.Prelude.{IfOk};
ghost use Rattle.dataset_types.specs.Tables.{Distinct, row_ids};

use crate::tests::{column, columns, distinct_of, gives, grouped, int_or_null, rel};
use cell_errors::EvalFault;
use dataset_types::{
    MarkedValues, Row, Rows, Table, all_sure, law_of_numbers, names_distinct, rows_fit,
};
use expr_lang::Expr;
use relations::Rel;
use sqlite_items::Boxed;
use std::alloc::Global;
use std::process::Abort;
use std::test::*;
use value_types::{NoMemory, RowId};

/// A row with two numbers, and what is uncertain of it.
#[derive(Clone, Copy)]
pub(crate) struct Line {
    a: Option<i64>,
    a_marked: bool,
    b: Option<i64>,
    b_marked: bool,
    sure: bool,
}

/// Three rows, and whether others may be there.
#[derive(Clone, Copy)]
pub(crate) struct Lines {
    x: Line,
    y: Line,
    z: Line,
    is_open: bool,
    is_loose: bool,
}

/// What is asked of each group.
#[derive(Clone, Copy)]
pub(crate) enum Asked {
    Key,
    CountAll,
    Count,
    Sum,
    Min,
    Max,
}

pub(crate) fn sure(a: i64, b: i64) -> Line {
    Line {
        a: Some(a),
        a_marked: false,
        b: Some(b),
        b_marked: false,
        sure: true,
    }
}

fn guessed_a(line: Line) -> Line {
    Line {
        a_marked: true,
        ..line
    }
}

pub(crate) fn guessed_b(line: Line) -> Line {
    Line {
        b_marked: true,
        ..line
    }
}

fn without_a(line: Line) -> Line {
    Line { a: None, ..line }
}

pub(crate) fn without_b(line: Line) -> Line {
    Line { b: None, ..line }
}

fn unsure(line: Line) -> Line {
    Line {
        sure: false,
        ..line
    }
}

pub(crate) fn closed(x: Line, y: Line, z: Line) -> Lines {
    Lines {
        x,
        y,
        z,
        is_open: false,
        is_loose: false,
    }
}

fn open(x: Line, y: Line, z: Line) -> Lines {
    Lines {
        is_open: true,
        ..closed(x, y, z)
    }
}

fn values(alloc: Global, line: Line) -> Result<MarkedValues, NoMemory> {
    let mut values = MarkedValues::new(alloc)?;
    values.push(alloc, int_or_null(line.a, line.a_marked))?;
    values.push(alloc, int_or_null(line.b, line.b_marked))?;
    Ok(values)
}

fn rows_of(alloc: Global, lines: Lines) -> Result<Rows, NoMemory>
    ensures { IfOk result (λ rows. Distinct (row_ids rows)) }
{
    let mut rows = Rows::new(alloc)?;
    let first = Row {
        id: RowId::Rec(1),
        sure: lines.x.sure,
        values: values(alloc, lines.x)?,
    };
    rows.push(alloc, first)?;
    let second = Row {
        id: RowId::Rec(2),
        sure: lines.y.sure,
        values: values(alloc, lines.y)?,
    };
    rows.push(alloc, second)?;
    let third = Row {
        id: RowId::Rec(3),
        sure: lines.z.sure,
        values: values(alloc, lines.z)?,
    };
    rows.push(alloc, third)?;
    law_of_numbers(&rows);
    Ok(rows)
}

pub(crate) fn rel_of(rt: &impl Abort, alloc: Global, lines: Lines) -> Result<Rel, EvalFault> {
    let columns = columns(alloc)?;
    let rows = rows_of(alloc, lines)?;
    assert!(rt; names_distinct(columns.as_slice()));
    assert!(rt; rows_fit(columns.as_slice(), rows.as_slice()));
    assert!(rt; lines.is_open || all_sure(rows.as_slice()));
    match Table::new(alloc, columns, rows, lines.is_open, lines.is_loose) {
        Ok(table) => Ok(Rel::of_table(alloc, &table, &None)?),
        Err(_) => Err(EvalFault::NoMemory),
    }
}

fn b(alloc: Global) -> Result<Boxed<Expr>, NoMemory> {
    Ok(Boxed::new(alloc, column("b")?)?)
}

pub(crate) fn item(alloc: Global, asked: Asked) -> Result<Expr, NoMemory> {
    match asked {
        Asked::Key => column("a"),
        Asked::CountAll => Ok(Expr::CountAll),
        Asked::Count => Ok(Expr::Count(b(alloc)?)),
        Asked::Sum => Ok(Expr::Sum(b(alloc)?)),
        Asked::Min => Ok(Expr::Min(b(alloc)?)),
        Asked::Max => Ok(Expr::Max(b(alloc)?)),
    }
}

/// Whether one item over groups by these places is shown so.
fn shows(
    rt: &impl Abort,
    alloc: Global,
    lines: Lines,
    keys: &[u32],
    asked: Asked,
    want: &str,
) -> bool {
    let rel = rel_of(rt, alloc, lines);
    let answer = grouped(rt, alloc, rel, keys, None, item(alloc, asked));
    gives(alloc, &answer, want)
}

/// Whether DISTINCT is shown so.
fn distinct_shows(rt: &impl Abort, alloc: Global, lines: Lines, want: &str) -> bool {
    gives(alloc, &distinct_of(alloc, rel_of(rt, alloc, lines)), want)
}

/// Whether an aggregate over a relation without rows is shown so.
fn shows_of_none(
    rt: &impl Abort,
    alloc: Global,
    is_open: bool,
    keys: &[u32],
    asked: Asked,
    want: &str,
) -> bool {
    let none = rel(rt, alloc, &[], is_open);
    let answer = grouped(rt, alloc, none, keys, None, item(alloc, asked));
    gives(alloc, &answer, want)
}

#[test]
fn a_key_that_is_null_by_a_guess_is_that_of_the_nulls(rt: HostRuntime) {
    let alloc = rt.alloc();
    let guess = guessed_a(without_a(sure(0, 1)));
    let null = without_a(sure(0, 2));
    let five = sure(5, 3);
    let one = closed(guess, null, five);
    let both = closed(guess, guess, five);
    assert!(rt;
        shows(
            &rt,
            alloc,
            one,
            &[1],
            Asked::CountAll,
            "[null] ~2; [5] ~1; open"
        )
    );
    assert!(rt;
        shows(
            &rt,
            alloc,
            one,
            &[1],
            Asked::Key,
            "[null] null; [5] 5; open"
        )
    );
    assert!(rt;
        shows(
            &rt,
            alloc,
            both,
            &[1],
            Asked::CountAll,
            "?[null] ~2; [5] ~1; open"
        )
    );
}

#[test]
fn a_group_is_sure_by_one_row_that_is_sure_and_has_its_key_unmarked(rt: HostRuntime) {
    let alloc = rt.alloc();
    let apart = open(guessed_a(sure(1, 1)), unsure(sure(1, 2)), sure(2, 3));
    let as_one = open(guessed_a(sure(1, 1)), sure(1, 2), unsure(sure(2, 3)));
    assert!(rt; shows(&rt, alloc, apart, &[1], Asked::Key, "?[1] 1; [2] 2; open"));
    assert!(rt; shows(&rt, alloc, as_one, &[1], Asked::Key, "[1] 1; ?[2] 2; open"));
}

#[test]
fn an_aggregate_has_the_marks_of_its_operand_in_its_own_group(rt: HostRuntime) {
    let alloc = rt.alloc();
    let lines = closed(sure(1, 4), guessed_b(sure(1, 2)), sure(2, 7));
    assert!(rt; shows(&rt, alloc, lines, &[1], Asked::CountAll, "[1] 2; [2] 1; "));
    assert!(rt; shows(&rt, alloc, lines, &[1], Asked::Count, "[1] ~2; [2] 1; "));
    assert!(rt; shows(&rt, alloc, lines, &[1], Asked::Sum, "[1] ~6; [2] 7; "));
    assert!(rt; shows(&rt, alloc, lines, &[1], Asked::Min, "[1] ~2; [2] 7; "));
    assert!(rt; shows(&rt, alloc, lines, &[1], Asked::Max, "[1] ~4; [2] 7; "));
    assert!(rt; shows(&rt, alloc, lines, &[], Asked::Sum, "[] ~13; "));
}

#[test]
fn a_null_that_is_skipped_leaves_its_mark(rt: HostRuntime) {
    let alloc = rt.alloc();
    let guess = guessed_b(without_b(sure(1, 0)));
    let lines = closed(guess, sure(1, 2), without_b(sure(2, 0)));
    assert!(rt; shows(&rt, alloc, lines, &[1], Asked::Count, "[1] ~1; [2] 0; "));
    assert!(rt; shows(&rt, alloc, lines, &[1], Asked::Sum, "[1] ~2; [2] null; "));
    assert!(rt; shows(&rt, alloc, lines, &[1], Asked::Max, "[1] ~2; [2] null; "));
}

#[test]
fn unsure_rows_count_and_leave_their_group_unsure(rt: HostRuntime) {
    let alloc = rt.alloc();
    let lines = open(sure(1, 4), unsure(sure(1, 2)), unsure(sure(2, 7)));
    assert!(rt;
        shows(
            &rt,
            alloc,
            lines,
            &[1],
            Asked::CountAll,
            "[1] ~2; ?[2] ~1; open"
        )
    );
    assert!(rt; shows(&rt, alloc, lines, &[], Asked::Sum, "[] ~13; "));
}

#[test]
fn aggregates_over_no_rows(rt: HostRuntime) {
    let alloc = rt.alloc();
    assert!(rt; shows_of_none(&rt, alloc, false, &[], Asked::Count, "[] 0; "));
    assert!(rt; shows_of_none(&rt, alloc, false, &[], Asked::Min, "[] null; "));
    assert!(rt; shows_of_none(&rt, alloc, false, &[], Asked::Max, "[] null; "));
    assert!(rt; shows_of_none(&rt, alloc, true, &[], Asked::CountAll, "[] ~0; "));
    assert!(rt; shows_of_none(&rt, alloc, true, &[], Asked::Sum, "[] ~null; "));
    assert!(rt; shows_of_none(&rt, alloc, true, &[1], Asked::CountAll, "open"));
}

#[test]
fn distinct_is_sure_by_a_sure_row_without_marks(rt: HostRuntime) {
    let alloc = rt.alloc();
    let doubted = open(sure(1, 1), unsure(sure(1, 1)), unsure(sure(2, 1)));
    assert!(rt; distinct_shows(&rt, alloc, doubted, "[1,1] 1 1; ?[2,1] 2 1; open"));
    let guessed = closed(guessed_b(sure(1, 1)), sure(1, 1), guessed_b(sure(1, 2)));
    assert!(rt; distinct_shows(&rt, alloc, guessed, "[1,1] 1 1; ?[1,2] 1 2; open"));
    let null = without_a(sure(0, 1));
    let nulls = closed(null, without_a(sure(0, 2)), null);
    assert!(rt; distinct_shows(&rt, alloc, nulls, "[null,1] null 1; [null,2] null 2; "));
}

fn loosely(lines: Lines) -> Lines {
    Lines {
        is_loose: true,
        ..lines
    }
}

fn is_loose(answer: &Result<Rel, EvalFault>) -> bool {
    match answer {
        Ok(rel) => rel.is_loose(),
        Err(_) => true,
    }
}

#[test]
fn groups_of_a_loose_relation_are_in_order(rt: HostRuntime) {
    let alloc = rt.alloc();
    let lines = loosely(closed(sure(2, 1), sure(1, 1), sure(2, 1)));
    let counts = grouped(
        &rt,
        alloc,
        rel_of(&rt, alloc, lines),
        &[1],
        None,
        Ok(Expr::CountAll),
    );
    assert!(rt; gives(alloc, &counts, "[1] 1; [2] 2; "));
    assert!(rt; !is_loose(&counts));
    let rows = distinct_of(alloc, rel_of(&rt, alloc, lines));
    assert!(rt; gives(alloc, &rows, "[1,1] 1 1; [2,1] 2 1; "));
    assert!(rt; !is_loose(&rows));
}
