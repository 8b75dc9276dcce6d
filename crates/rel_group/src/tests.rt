//! Groups of rows with two numbers, a and b. Each result is shown as one line: rows, then whether it is open.
//!
//! What other test modules call has no contract: tests look at what they get.
ghost use Rattle.std.specs.Prelude.{IfOk};
ghost use Rattle.dataset_types.specs.Tables.{Distinct, row_ids};
ghost use Rattle.rel_ops.specs.Project.{item_names};

use crate::{are_places, distinct, group};
use cell_errors::{CellError, EvalFault};
use dataset_types::{
    Column, Columns, Marked, MarkedValues, Picks, Row, Rows, Table, all_sure, law_of_numbers,
    names_distinct, rows_fit,
};
use expr_lang::{BinaryOp, Expr};
use relations::{ColumnRefs, Item, Items, Rel};
use sqlite_items::Boxed;
use std::alloc::Global;
use std::process::Abort;
use std::test::*;
use value_types::{
    ColumnType, Name, NoMemory, RowId, Value, Words, id_text, literal_text, read_name,
};

/// a, whether it is marked, and b.
type Cells = (Option<i64>, bool, Option<i64>);

pub(crate) fn named(text: &str) -> Result<Name, NoMemory> {
    read_name(text.as_bytes()).ok_or(NoMemory)
}

pub(crate) fn columns(alloc: Global) -> Result<Columns, NoMemory> {
    let mut columns = Columns::new(alloc)?;
    for name in ["a", "b"] {
        let name = named(name)?;
        let kind = ColumnType::Int;
        columns.push(alloc, Column { name, kind })?;
    }
    Ok(columns)
}

pub(crate) fn int_or_null(n: Option<i64>, marked: bool) -> Marked {
    let value = match n {
        None => Value::Null,
        Some(n) => Value::Int(n),
    };
    Marked { value, marked }
}

fn values(alloc: Global, cells: Cells) -> Result<MarkedValues, NoMemory> {
    let mut values = MarkedValues::new(alloc)?;
    values.push(alloc, int_or_null(cells.0, cells.1))?;
    values.push(alloc, int_or_null(cells.2, false))?;
    Ok(values)
}

fn three_rows(alloc: Global, x: Cells, y: Cells, z: Cells) -> Result<Rows, NoMemory>
    ensures { IfOk result (λ rows. Distinct (row_ids rows)) }
{
    let x = values(alloc, x)?;
    let y = values(alloc, y)?;
    let z = values(alloc, z)?;
    let mut rows = Rows::new(alloc)?;
    rows.push(
        alloc,
        Row {
            id: RowId::Rec(1),
            sure: true,
            values: x,
        },
    )?;
    rows.push(
        alloc,
        Row {
            id: RowId::Rec(2),
            sure: true,
            values: y,
        },
    )?;
    rows.push(
        alloc,
        Row {
            id: RowId::Rec(3),
            sure: true,
            values: z,
        },
    )?;
    law_of_numbers(&rows);
    Ok(rows)
}

fn rows_of(alloc: Global, cells: &[Cells]) -> Result<Rows, NoMemory>
    ensures { IfOk result (λ rows. Distinct (row_ids rows)) }
{
    match cells {
        [x, y, z] => three_rows(alloc, *x, *y, *z),
        _ => Rows::new(alloc),
    }
}

pub(crate) fn rel(
    rt: &impl Abort,
    alloc: Global,
    cells: &[Cells],
    is_open: bool,
) -> Result<Rel, EvalFault> {
    let columns = columns(alloc)?;
    let rows = rows_of(alloc, cells)?;
    assert!(rt; names_distinct(columns.as_slice()));
    assert!(rt; rows_fit(columns.as_slice(), rows.as_slice()));
    assert!(rt; all_sure(rows.as_slice()));
    match Table::new(alloc, columns, rows, is_open, false) {
        Ok(table) => Ok(Rel::of_table(alloc, &table, &None)?),
        Err(_) => Err(EvalFault::NoMemory),
    }
}

fn push_row(alloc: Global, out: &mut Words, row: &Row) -> Result<(), NoMemory> {
    out.push_text(alloc, if row.sure { "" } else { "?" })?;
    id_text(alloc, &row.id, out)?;
    for marked in row.values.as_slice() {
        out.push_text(alloc, if marked.marked { " ~" } else { " " })?;
        literal_text(alloc, &marked.value, out)?;
    }
    out.push_text(alloc, "; ")
}

fn push_rel(alloc: Global, out: &mut Words, rel: &Rel) -> Result<(), NoMemory> {
    for row in rel.rows().as_slice() {
        push_row(alloc, out, row)?;
    }
    out.push_text(alloc, if rel.is_open() { "open" } else { "" })
}

fn line_of(alloc: Global, answer: &Result<Rel, EvalFault>) -> Result<Words, NoMemory> {
    let mut out = Words::new(alloc)?;
    match answer {
        Ok(rel) => push_rel(alloc, &mut out, rel)?,
        Err(EvalFault::Error(CellError::ZeroDivisor)) => out.push_text(alloc, "ZeroDivisor")?,
        Err(EvalFault::Error(CellError::TypeFault)) => out.push_text(alloc, "TypeFault")?,
        Err(EvalFault::Error(CellError::Overflow)) => out.push_text(alloc, "Overflow")?,
        Err(_) => out.push_text(alloc, "another fault")?,
    }
    Ok(out)
}

pub(crate) fn gives(alloc: Global, answer: &Result<Rel, EvalFault>, want: &str) -> bool {
    match line_of(alloc, answer) {
        Ok(line) => line.as_text() == want,
        Err(_) => false,
    }
}

pub(crate) fn int(n: i64) -> Expr {
    Expr::Literal(Value::Int(n))
}

pub(crate) fn column(name: &str) -> Result<Expr, NoMemory> {
    Ok(Expr::Column {
        qualifier: None,
        name: named(name)?,
    })
}

pub(crate) fn binary(alloc: Global, op: BinaryOp, a: Expr, b: Expr) -> Result<Expr, NoMemory> {
    let a = Boxed::new(alloc, a)?;
    Ok(Expr::Binary(op, a, Boxed::new(alloc, b)?))
}

/// The sum of b.
pub(crate) fn sum(alloc: Global) -> Result<Expr, NoMemory> {
    Ok(Expr::Sum(Boxed::new(alloc, column("b")?)?))
}

#[tactic(auto, using(crate::proofs::DistinctRules::one_name))]
fn one_item(alloc: Global, expr: Expr) -> Result<Items, NoMemory>
    ensures { IfOk result (λ items. Distinct (item_names items)) }
{
    let mut items = Items::new(alloc)?;
    let name = named("x")?;
    items.push(alloc, Item { expr, name })?;
    Ok(items)
}

fn places(alloc: Global, keys: &[u32]) -> Result<ColumnRefs, NoMemory> {
    let mut places = ColumnRefs::new(alloc)?;
    for key in keys {
        places.push(alloc, *key)?;
    }
    Ok(places)
}

/// One item over groups by these places.
pub(crate) fn grouped(
    rt: &impl Abort,
    alloc: Global,
    rel: Result<Rel, EvalFault>,
    keys: &[u32],
    having: Option<&Expr>,
    item: Result<Expr, NoMemory>,
) -> Result<Rel, EvalFault> {
    let rel = rel?;
    let items = one_item(alloc, item?)?;
    let keys = places(alloc, keys)?;
    assert!(rt; are_places(&rel, &keys));
    group(alloc, &rel, &keys, having, &items, &Picks::new(alloc)?, 1)
}

// Two rows without a key, and one with.
const NULLS: [Cells; 3] = [
    (None, false, Some(1)),
    (Some(1), false, Some(2)),
    (None, false, Some(3)),
];

#[test]
fn rows_without_a_key_are_one_group(rt: HostRuntime) {
    let alloc = rt.alloc();
    let sums = grouped(
        &rt,
        alloc,
        rel(&rt, alloc, &NULLS, false),
        &[1],
        None,
        sum(alloc),
    );
    assert!(rt; gives(alloc, &sums, "[null] 4; [1] 2; "));
    let twice = grouped(
        &rt,
        alloc,
        rel(&rt, alloc, &NULLS, false),
        &[1, 1],
        None,
        column("a"),
    );
    assert!(rt; gives(alloc, &twice, "[null,null] null; [1,1] 1; "));
}

#[test]
fn without_keys_there_is_one_group_of_no_rows_too(rt: HostRuntime) {
    let alloc = rt.alloc();
    let none = grouped(
        &rt,
        alloc,
        rel(&rt, alloc, &[], false),
        &[1],
        None,
        Ok(Expr::CountAll),
    );
    assert!(rt; gives(alloc, &none, ""));
    let count = grouped(
        &rt,
        alloc,
        rel(&rt, alloc, &[], false),
        &[],
        None,
        Ok(Expr::CountAll),
    );
    assert!(rt; gives(alloc, &count, "[] 0; "));
    let sum = grouped(
        &rt,
        alloc,
        rel(&rt, alloc, &[], false),
        &[],
        None,
        sum(alloc),
    );
    assert!(rt; gives(alloc, &sum, "[] null; "));
}

#[test]
fn a_count_over_an_open_relation_is_a_guess(rt: HostRuntime) {
    let alloc = rt.alloc();
    let one = grouped(
        &rt,
        alloc,
        rel(&rt, alloc, &NULLS, true),
        &[],
        None,
        Ok(Expr::CountAll),
    );
    assert!(rt; gives(alloc, &one, "[] ~3; "));
    let literal = grouped(
        &rt,
        alloc,
        rel(&rt, alloc, &NULLS, true),
        &[],
        None,
        Ok(int(7)),
    );
    assert!(rt; gives(alloc, &literal, "[] 7; "));
    let each = grouped(
        &rt,
        alloc,
        rel(&rt, alloc, &NULLS, true),
        &[1],
        None,
        Ok(Expr::CountAll),
    );
    assert!(rt; gives(alloc, &each, "[null] ~2; [1] ~1; open"));
}

// The only row with a 1 has it by a guess.
const GUESSED: [Cells; 3] = [
    (Some(1), true, Some(1)),
    (Some(2), false, Some(1)),
    (Some(2), true, Some(1)),
];

pub(crate) fn distinct_of(alloc: Global, rel: Result<Rel, EvalFault>) -> Result<Rel, EvalFault> {
    distinct(alloc, &rel?)
}

#[test]
fn a_group_by_a_guess_is_unsure(rt: HostRuntime) {
    let alloc = rt.alloc();
    let counts = grouped(
        &rt,
        alloc,
        rel(&rt, alloc, &GUESSED, false),
        &[1],
        None,
        Ok(Expr::CountAll),
    );
    assert!(rt; gives(alloc, &counts, "?[1] ~1; [2] ~2; open"));
    let rows = distinct_of(alloc, rel(&rt, alloc, &GUESSED, false));
    assert!(rt; gives(alloc, &rows, "?[1,1] 1 1; [2,1] 2 1; open"));
}

fn summed(rt: &impl Abort, alloc: Global, last: i64) -> Result<Rel, EvalFault> {
    let cells = [
        (Some(1), false, Some(i64::MAX)),
        (Some(1), false, Some(1)),
        (Some(1), false, Some(last)),
    ];
    grouped(
        rt,
        alloc,
        rel(rt, alloc, &cells, false),
        &[],
        None,
        sum(alloc),
    )
}

#[test]
fn a_sum_may_pass_64_bits_on_its_way(rt: HostRuntime) {
    let alloc = rt.alloc();
    assert!(rt; gives(alloc, &summed(&rt, alloc, -1), "[] 9223372036854775807; "));
    assert!(rt; gives(alloc, &summed(&rt, alloc, 0), "Overflow"));
}

// a = 0 OR a, which is TRUE of the group 0 and no Bool of the group 1.
fn zero_or_a(alloc: Global) -> Result<Expr, NoMemory> {
    let is_zero = binary(alloc, BinaryOp::Equal, column("a")?, int(0))?;
    binary(alloc, BinaryOp::Or, is_zero, column("a")?)
}

fn one_over_a(alloc: Global) -> Result<Expr, NoMemory> {
    binary(alloc, BinaryOp::Divide, int(1), column("a")?)
}

pub(crate) fn divided(
    rt: &impl Abort,
    alloc: Global,
    having: Option<&Expr>,
) -> Result<Rel, EvalFault> {
    let cells = [
        (Some(1), false, Some(1)),
        (Some(0), false, Some(1)),
        (Some(1), false, Some(1)),
    ];
    grouped(
        rt,
        alloc,
        rel(rt, alloc, &cells, false),
        &[1],
        having,
        one_over_a(alloc),
    )
}

#[test]
fn having_of_all_groups_comes_before_any_item(rt: HostRuntime) {
    let alloc = rt.alloc();
    assert!(rt; gives(alloc, &divided(&rt, alloc, None), "ZeroDivisor"));
    let condition = zero_or_a(alloc).expect(&rt, "memory");
    assert!(rt; gives(alloc, &divided(&rt, alloc, Some(&condition)), "TypeFault"));
}
