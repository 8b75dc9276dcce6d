//! Joins of two small datasets. Each result is shown as one line: rows, then flags.
//!
//! What other test modules call has no contract: tests look at what they get.
ghost use Rattle.std.specs.Prelude.{IfOk};
ghost use Rattle.dataset_types.specs.Tables.{Distinct, row_ids};

use crate::joining::allow;
use crate::{Kind, are_apart, join, left_join};
use cell_errors::{CellError, EvalFault};
use dataset_types::{
    Column, Columns, Marked, MarkedValues, Picks, Row, Rows, Table, all_sure, law_of_numbers,
    names_distinct, rows_fit,
};
use expr_lang::{BinaryOp, Expr};
use relations::Rel;
use sqlite_items::Boxed;
use std::alloc::Global;
use std::process::Abort;
use std::test::*;
use value_types::{
    ColumnType, Name, NoMemory, RowId, Value, Words, id_text, literal_text, read_name,
};

/// A dataset of two rows with a number each, or of none.
#[derive(Clone, Copy)]
pub(crate) struct Side {
    pub numbers: Option<(i64, i64)>,
    /// Whether the second number has a caveat.
    pub marked: bool,
    /// Whether the second row is sure.
    pub sure: bool,
    pub is_open: bool,
    pub is_loose: bool,
}

pub(crate) fn closed(n: i64, m: i64) -> Side {
    Side {
        numbers: Some((n, m)),
        marked: false,
        sure: true,
        is_open: false,
        is_loose: false,
    }
}

fn no_rows() -> Side {
    Side {
        numbers: None,
        ..closed(0, 0)
    }
}

fn named(text: &str) -> Result<Name, NoMemory> {
    read_name(text.as_bytes()).ok_or(NoMemory)
}

fn columns(alloc: Global) -> Result<Columns, NoMemory> {
    let mut columns = Columns::new(alloc)?;
    let name = named("n")?;
    let kind = ColumnType::Int;
    columns.push(alloc, Column { name, kind })?;
    Ok(columns)
}

fn one_value(alloc: Global, n: i64, marked: bool) -> Result<MarkedValues, NoMemory> {
    let mut values = MarkedValues::new(alloc)?;
    let value = Value::Int(n);
    values.push(alloc, Marked { value, marked })?;
    Ok(values)
}

fn two_rows(alloc: Global, n: i64, m: i64, marked: bool, sure: bool) -> Result<Rows, NoMemory>
    ensures { IfOk result (λ rows. Distinct (row_ids rows)) }
{
    let mut rows = Rows::new(alloc)?;
    let first = Row {
        id: RowId::Rec(1),
        sure: true,
        values: one_value(alloc, n, false)?,
    };
    rows.push(alloc, first)?;
    let second = Row {
        id: RowId::Rec(2),
        sure,
        values: one_value(alloc, m, marked)?,
    };
    rows.push(alloc, second)?;
    law_of_numbers(&rows);
    Ok(rows)
}

fn rows_of(alloc: Global, side: Side) -> Result<Rows, NoMemory>
    ensures { IfOk result (λ rows. Distinct (row_ids rows)) }
{
    match side.numbers {
        None => Rows::new(alloc),
        Some((n, m)) => two_rows(alloc, n, m, side.marked, side.sure),
    }
}

/// A side under a qualifier.
fn rel_of(rt: &impl Abort, alloc: Global, qualifier: &str, side: Side) -> Result<Rel, EvalFault> {
    let columns = columns(alloc)?;
    let rows = rows_of(alloc, side)?;
    assert!(rt; names_distinct(columns.as_slice()));
    assert!(rt; rows_fit(columns.as_slice(), rows.as_slice()));
    assert!(rt; side.is_open || all_sure(rows.as_slice()));
    match Table::new(alloc, columns, rows, side.is_open, side.is_loose) {
        Ok(table) => Ok(Rel::of_table(alloc, &table, &Some(named(qualifier)?))?),
        Err(_) => Err(EvalFault::NoMemory),
    }
}

fn column(alloc: Global, qualifier: &str) -> Result<Boxed<Expr>, NoMemory> {
    let column = Expr::Column {
        qualifier: Some(named(qualifier)?),
        name: named("n")?,
    };
    Ok(Boxed::new(alloc, column)?)
}

/// The numbers of two qualifiers under an operator.
fn compared(alloc: Global, op: BinaryOp, a: &str, b: &str) -> Result<Expr, NoMemory> {
    let left = column(alloc, a)?;
    let right = column(alloc, b)?;
    Ok(Expr::Binary(op, left, right))
}

fn joined(
    rt: &impl Abort,
    alloc: Global,
    kind: Kind,
    left: Side,
    right: Side,
    on: &Expr,
) -> Result<Rel, EvalFault> {
    let a = rel_of(rt, alloc, "a", left)?;
    let b = rel_of(rt, alloc, "b", right)?;
    let picks = Picks::new(alloc)?;
    assert!(rt; are_apart(&a, &b));
    match kind {
        Kind::Inner => join(alloc, &a, &b, on, &picks, 1),
        Kind::Outer => left_join(alloc, &a, &b, on, &picks, 1),
    }
}

fn push_row(alloc: Global, out: &mut Words, row: &Row) -> Result<(), NoMemory> {
    out.push_text(alloc, if row.sure { "" } else { "?" })?;
    id_text(alloc, &row.id, out)?;
    for marked in row.values.as_slice() {
        out.push_text(alloc, if marked.marked { " ~" } else { " " })?;
        literal_text(alloc, &marked.value, out)?;
    }
    out.push_text(alloc, "; ")
}

fn push_rel(alloc: Global, out: &mut Words, rel: &Rel) -> Result<(), NoMemory> {
    for row in rel.rows().as_slice() {
        push_row(alloc, out, row)?;
    }
    out.push_text(alloc, if rel.is_open() { "open" } else { "closed" })?;
    out.push_text(alloc, if rel.is_loose() { " loose" } else { "" })
}

fn line_of(alloc: Global, answer: &Result<Rel, EvalFault>) -> Result<Words, NoMemory> {
    let mut out = Words::new(alloc)?;
    match answer {
        Ok(rel) => push_rel(alloc, &mut out, rel)?,
        Err(EvalFault::Error(CellError::NoColumn)) => out.push_text(alloc, "NoColumn")?,
        Err(_) => out.push_text(alloc, "another fault")?,
    }
    Ok(out)
}

fn gives(alloc: Global, answer: &Result<Rel, EvalFault>, want: &str) -> bool {
    match line_of(alloc, answer) {
        Ok(line) => line.as_text() == want,
        Err(_) => false,
    }
}

/// Whether the join of two sides by an operator on the numbers of two qualifiers is shown so.
fn shows_by(
    rt: &impl Abort,
    kind: Kind,
    (left, right): (Side, Side),
    (op, a, b): (BinaryOp, &str, &str),
    alloc: Global,
    want: &str,
) -> bool {
    match compared(alloc, op, a, b) {
        Ok(on) => gives(alloc, &joined(rt, alloc, kind, left, right, &on), want),
        Err(_) => false,
    }
}

/// Whether the join of two sides by equal numbers is shown so.
pub(crate) fn shows(
    rt: &impl Abort,
    alloc: Global,
    kind: Kind,
    left: Side,
    right: Side,
    want: &str,
) -> bool {
    let on = (BinaryOp::Equal, "a", "b");
    shows_by(rt, kind, (left, right), on, alloc, want)
}

#[test]
fn pairs_whose_on_is_true_are_kept(rt: HostRuntime) {
    let alloc = rt.alloc();
    let two = closed(1, 2);
    let guess = Side {
        marked: true,
        ..closed(2, 3)
    };
    assert!(rt;
        shows(
            &rt,
            alloc,
            Kind::Inner,
            two,
            closed(2, 3),
            "(#2,#1) 2 2; closed"
        )
    );
    assert!(rt; shows(&rt, alloc, Kind::Inner, two, guess, "(#2,#1) 2 2; open"));
}

#[test]
fn a_pair_is_unsure_where_a_row_is_or_its_on_is_marked(rt: HostRuntime) {
    let alloc = rt.alloc();
    let two = closed(1, 2);
    let unsure = Side {
        sure: false,
        is_open: true,
        ..two
    };
    let guess = Side {
        marked: true,
        ..two
    };
    let sure_first = "(#1,#1) 1 1; ?(#2,#2) 2 2; open";
    assert!(rt; shows(&rt, alloc, Kind::Inner, unsure, two, sure_first));
    assert!(rt; shows(&rt, alloc, Kind::Inner, two, unsure, sure_first));
    assert!(rt;
        shows(
            &rt,
            alloc,
            Kind::Inner,
            two,
            guess,
            "(#1,#1) 1 1; ?(#2,#2) 2 ~2; open"
        )
    );
}

#[test]
fn a_join_is_loose_where_a_side_is(rt: HostRuntime) {
    let alloc = rt.alloc();
    let two = closed(1, 2);
    let loose = Side {
        is_loose: true,
        ..two
    };
    let want = "(#1,#1) 1 1; (#2,#2) 2 2; closed loose";
    assert!(rt; shows(&rt, alloc, Kind::Inner, loose, two, want));
    assert!(rt; shows(&rt, alloc, Kind::Outer, two, loose, want));
}

#[test]
fn that_a_row_has_no_pair_is_only_as_certain_as_each_on(rt: HostRuntime) {
    let alloc = rt.alloc();
    let two = closed(1, 2);
    let certain = "(#1,-) 1 null; (#2,#1) 2 2; closed";
    let guessed = "?(#1,-) 1 null; (#2,#1) 2 2; open";
    let right = closed(2, 3);
    let guess = Side {
        marked: true,
        ..right
    };
    assert!(rt; shows(&rt, alloc, Kind::Outer, two, right, certain));
    assert!(rt; shows(&rt, alloc, Kind::Outer, two, guess, guessed));
}

#[test]
fn that_a_row_has_no_pair_is_never_certain_beside_an_open_side(rt: HostRuntime) {
    let alloc = rt.alloc();
    let two = closed(1, 2);
    let open = Side {
        is_open: true,
        ..closed(2, 3)
    };
    let open_guess = Side {
        marked: true,
        ..open
    };
    let guessed = "?(#1,-) 1 null; (#2,#1) 2 2; open";
    assert!(rt; shows(&rt, alloc, Kind::Outer, two, open, guessed));
    assert!(rt; shows(&rt, alloc, Kind::Outer, two, open_guess, guessed));
}

#[test]
fn a_left_side_that_is_open_leaves_absence_certain(rt: HostRuntime) {
    let alloc = rt.alloc();
    let open = Side {
        is_open: true,
        ..closed(1, 2)
    };
    let unsure = Side {
        sure: false,
        ..open
    };
    let right = closed(2, 3);
    let sure_row = "(#1,-) 1 null; (#2,#1) 2 2; open";
    assert!(rt; shows(&rt, alloc, Kind::Outer, open, right, sure_row));
    assert!(rt;
        shows(
            &rt,
            alloc,
            Kind::Outer,
            unsure,
            no_rows(),
            "(#1,-) 1 null; ?(#2,-) 2 null; open"
        )
    );
}

#[test]
fn an_empty_side_has_no_pairs(rt: HostRuntime) {
    let alloc = rt.alloc();
    let two = closed(1, 2);
    let alone = "(#1,-) 1 null; (#2,-) 2 null; closed";
    assert!(rt; shows(&rt, alloc, Kind::Inner, no_rows(), two, "closed"));
    assert!(rt; shows(&rt, alloc, Kind::Inner, two, no_rows(), "closed"));
    assert!(rt; shows(&rt, alloc, Kind::Outer, no_rows(), two, "closed"));
    assert!(rt; shows(&rt, alloc, Kind::Outer, two, no_rows(), alone));
}

#[test]
fn an_on_of_any_form_is_asked_of_each_pair(rt: HostRuntime) {
    let alloc = rt.alloc();
    let sides = (closed(1, 2), closed(2, 3));
    let less = (BinaryOp::Less, "a", "b");
    let all_pairs = "(#1,#1) 1 2; (#1,#2) 1 3; (#2,#2) 2 3; closed";
    assert!(rt; shows_by(&rt, Kind::Inner, sides, less, alloc, all_pairs));
    let turned = (BinaryOp::Equal, "b", "a");
    assert!(rt;
        shows_by(
            &rt,
            Kind::Inner,
            sides,
            turned,
            alloc,
            "(#2,#1) 2 2; closed"
        )
    );
    let itself = (BinaryOp::Equal, "b", "b");
    let each = "(#1,#1) 1 2; (#1,#2) 1 3; (#2,#1) 2 2; (#2,#2) 2 3; closed";
    assert!(rt; shows_by(&rt, Kind::Inner, sides, itself, alloc, each));
}

#[test]
fn a_name_that_stands_for_nothing_is_an_error_where_there_is_a_pair(rt: HostRuntime) {
    let alloc = rt.alloc();
    let two = closed(1, 2);
    let unknown = (BinaryOp::Equal, "a", "c");
    assert!(rt; shows_by(&rt, Kind::Inner, (two, two), unknown, alloc, "NoColumn"));
    assert!(rt; shows_by(&rt, Kind::Inner, (two, no_rows()), unknown, alloc, "closed"));
}

#[test]
fn sixteen_million_pairs_are_looked_at_and_no_more(rt: HostRuntime) {
    assert!(rt; allow(4_000, 4_000).is_ok());
    assert!(rt; allow(16_000_000, 1).is_ok());
    assert!(rt; allow(65_536, 244).is_ok());
    assert!(rt; allow(0, 65_536).is_ok());
    let too_large = Some(CellError::TooLarge);
    assert!(rt; allow(16_000_001, 1).err() == too_large);
    assert!(rt; allow(65_536, 245).err() == too_large);
    assert!(rt; allow(4_000, 4_001).err() == too_large);
}
