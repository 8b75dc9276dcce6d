//! Steps over two prices, one of which could not be read. Each result is shown as one line: rows, then flags.
//!
//! What other test modules call has no contract: tests look at what they get.
ghost use Rattle.std.specs.Prelude.{IfOk};
ghost use Rattle.dataset_types.specs.Tables.{Distinct, row_ids};
ghost use Rattle.rel_ops.specs.Project.{item_names};

use crate::{filter, filter_table, item_columns, limit, project, sort, types_agree, union_all};
use cell_errors::{CellError, EvalFault};
use dataset_types::{
    Column, Columns, Marked, MarkedValues, Picks, Row, Rows, Table, all_sure, law_of_numbers,
    names_distinct, rows_fit,
};
use expr_lang::{BinaryOp, Expr};
use expr_meaning::{Scope, TypedSetting};
use relations::{Item, Items, Rel, SortKey, SortKeys};
use sqlite_items::Boxed;
use std::alloc::Global;
use std::process::Abort;
use std::test::*;
use value_types::{
    ColumnType, Name, NoMemory, RowId, Value, Words, id_text, literal_text, read_name,
};

fn named(text: &str) -> Result<Name, NoMemory> {
    read_name(text.as_bytes()).ok_or(NoMemory)
}

pub(crate) fn columns(alloc: Global) -> Result<Columns, NoMemory> {
    let mut columns = Columns::new(alloc)?;
    for (name, kind) in [("id", ColumnType::Int), ("price", ColumnType::Fixed)] {
        let name = named(name)?;
        columns.push(alloc, Column { name, kind })?;
    }
    Ok(columns)
}

pub(crate) fn values(
    alloc: Global,
    id: i64,
    price: Value,
    marked: bool,
) -> Result<MarkedValues, NoMemory> {
    let mut values = MarkedValues::new(alloc)?;
    let id = Value::Int(id);
    values.push(
        alloc,
        Marked {
            value: id,
            marked: false,
        },
    )?;
    values.push(
        alloc,
        Marked {
            value: price,
            marked,
        },
    )?;
    Ok(values)
}

fn rows(alloc: Global) -> Result<Rows, NoMemory>
    ensures { IfOk result (λ rows. Distinct (row_ids rows)) }
{
    let mut rows = Rows::new(alloc)?;
    let read = values(alloc, 1, Value::Fixed(25_000), false)?;
    let unread = values(alloc, 2, Value::Null, true)?;
    rows.push(
        alloc,
        Row {
            id: RowId::Rec(1),
            sure: true,
            values: read,
        },
    )?;
    rows.push(
        alloc,
        Row {
            id: RowId::Rec(2),
            sure: true,
            values: unread,
        },
    )?;
    law_of_numbers(&rows);
    Ok(rows)
}

fn price_table(rt: &impl Abort, alloc: Global) -> Result<Table, EvalFault> {
    let columns = columns(alloc)?;
    let rows = rows(alloc)?;
    assert!(rt; names_distinct(columns.as_slice()));
    assert!(rt; rows_fit(columns.as_slice(), rows.as_slice()));
    assert!(rt; all_sure(rows.as_slice()));
    match Table::new(alloc, columns, rows, false, false) {
        Ok(table) => Ok(table),
        Err(_) => Err(EvalFault::NoMemory),
    }
}

fn prices(rt: &impl Abort, alloc: Global) -> Result<Rel, EvalFault> {
    let table = price_table(rt, alloc)?;
    Ok(Rel::of_table(alloc, &table, &None)?)
}

fn push_row(alloc: Global, out: &mut Words, row: &Row) -> Result<(), NoMemory> {
    out.push_text(alloc, if row.sure { "" } else { "?" })?;
    id_text(alloc, &row.id, out)?;
    for marked in row.values.as_slice() {
        out.push_text(alloc, if marked.marked { " ~" } else { " " })?;
        literal_text(alloc, &marked.value, out)?;
    }
    out.push_text(alloc, "; ")
}

fn push_rel(alloc: Global, out: &mut Words, rel: &Rel) -> Result<(), NoMemory> {
    for row in rel.rows().as_slice() {
        push_row(alloc, out, row)?;
    }
    if rel.is_open() {
        out.push_text(alloc, "open ")?;
    }
    if rel.is_loose() {
        out.push_text(alloc, "loose ")?;
    }
    Ok(())
}

fn line_of(alloc: Global, answer: &Result<Rel, EvalFault>) -> Result<Words, NoMemory> {
    let mut out = Words::new(alloc)?;
    match answer {
        Ok(rel) => push_rel(alloc, &mut out, rel)?,
        Err(EvalFault::Error(CellError::ZeroDivisor)) => out.push_text(alloc, "ZeroDivisor")?,
        Err(EvalFault::Error(CellError::TypeFault)) => out.push_text(alloc, "TypeFault")?,
        Err(_) => out.push_text(alloc, "another fault")?,
    }
    Ok(out)
}

pub(crate) fn gives(alloc: Global, answer: &Result<Rel, EvalFault>, want: &str) -> bool {
    match line_of(alloc, answer) {
        Ok(line) => line.as_text() == want,
        Err(_) => false,
    }
}

pub(crate) fn column(name: &str) -> Result<Expr, NoMemory> {
    Ok(Expr::Column {
        qualifier: None,
        name: named(name)?,
    })
}

pub(crate) fn binary(alloc: Global, op: BinaryOp, a: Expr, n: i64) -> Result<Expr, NoMemory> {
    let a = Boxed::new(alloc, a)?;
    let b = Boxed::new(alloc, Expr::Literal(Value::Int(n)))?;
    Ok(Expr::Binary(op, a, b))
}

pub(crate) fn above_two(alloc: Global, rel: Rel) -> Result<Rel, EvalFault> {
    let condition = binary(alloc, BinaryOp::Greater, column("price")?, 2)?;
    filter(alloc, rel, &condition, &Picks::new(alloc)?, 1)
}

#[test]
fn a_row_that_is_left_out_leaves_a_caveat(rt: HostRuntime) {
    let alloc = rt.alloc();
    let kept = match prices(&rt, alloc) {
        Ok(rel) => above_two(alloc, rel),
        Err(fault) => Err(fault),
    };
    assert!(rt; gives(alloc, &kept, "#1 1 2.5000; open "));
}

fn table_above_two(rt: &impl Abort, alloc: Global) -> Result<Rel, EvalFault> {
    let table = price_table(rt, alloc)?;
    let price = Expr::Column {
        qualifier: Some(named("t")?),
        name: named("price")?,
    };
    let condition = binary(alloc, BinaryOp::Greater, price, 2)?;
    let qualifier = Some(named("t")?);
    filter_table(
        alloc,
        &table,
        &qualifier,
        &condition,
        &Picks::new(alloc)?,
        1,
    )
}

#[test]
fn a_row_that_is_left_out_of_a_dataset_leaves_a_caveat(rt: HostRuntime) {
    let alloc = rt.alloc();
    assert!(rt; gives(alloc, &table_above_two(&rt, alloc), "#1 1 2.5000; open "));
}

pub(crate) fn by_price(alloc: Global, rel: Rel, descending: bool) -> Result<Rel, EvalFault> {
    let mut keys = SortKeys::new(alloc)?;
    keys.push(
        alloc,
        SortKey {
            column: 2,
            descending,
        },
    )?;
    sort(alloc, rel, &keys)
}

fn first_by_price(rt: &impl Abort, alloc: Global, count: u64) -> Result<Rel, EvalFault> {
    let sorted = by_price(alloc, prices(rt, alloc)?, false)?;
    limit(alloc, sorted, count)
}

#[test]
fn order_by_a_guess_is_a_caveat(rt: HostRuntime) {
    let alloc = rt.alloc();
    let up = match prices(&rt, alloc) {
        Ok(rel) => by_price(alloc, rel, false),
        Err(fault) => Err(fault),
    };
    assert!(rt; gives(alloc, &up, "#2 2 ~null; #1 1 2.5000; loose "));
    let first = first_by_price(&rt, alloc, 1);
    assert!(rt; gives(alloc, &first, "?#2 2 ~null; open loose "));
}

#[tactic(auto, using(crate::proofs::ProjectRules::one_name))]
pub(crate) fn one_item(alloc: Global, expr: Expr) -> Result<Items, NoMemory>
    ensures { IfOk result (λ items. Distinct (item_names items)) }
{
    let mut items = Items::new(alloc)?;
    let name = named("x")?;
    items.push(alloc, Item { expr, name })?;
    Ok(items)
}

fn projected(rt: &impl Abort, alloc: Global, divisor: i64) -> Result<Rel, EvalFault> {
    let rel = prices(rt, alloc)?;
    let ratio = binary(alloc, BinaryOp::Divide, column("price")?, divisor)?;
    let items = one_item(alloc, ratio)?;
    project(alloc, &rel, &items, &Picks::new(alloc)?, 1)
}

#[test]
fn an_item_has_the_mark_of_what_it_looks_at(rt: HostRuntime) {
    let alloc = rt.alloc();
    assert!(rt; gives(alloc, &projected(&rt, alloc, 2), "#1 1.2500; #2 ~null; "));
    assert!(rt; gives(alloc, &projected(&rt, alloc, 0), "ZeroDivisor"));
}

fn typed(rt: &impl Abort, alloc: Global) -> Result<Scope, EvalFault> {
    let rel = prices(rt, alloc)?;
    let half = binary(alloc, BinaryOp::Divide, column("price")?, 2)?;
    let items = one_item(alloc, half)?;
    let types = TypedSetting {
        columns: rel.columns(),
        group: None,
    };
    item_columns(alloc, &types, items.as_slice())
}

#[test]
fn an_output_column_has_the_type_of_its_item(rt: HostRuntime) {
    let alloc = rt.alloc();
    let columns = typed(&rt, alloc).expect(&rt, "memory");
    assert_eq!(rt; columns.len(), 1);
    let fixed = ColumnType::Fixed;
    assert!(rt;
        columns
            .as_slice()
            .iter()
            .all(|one| one.column.kind == fixed)
    );
}

fn twice(rt: &impl Abort, alloc: Global) -> Result<Rel, EvalFault> {
    let one = limit(alloc, prices(rt, alloc)?, 1)?;
    let two = limit(alloc, prices(rt, alloc)?, 1)?;
    assert!(rt; types_agree(one.columns().as_slice(), two.columns().as_slice()));
    union_all(alloc, one, two)
}

#[test]
fn the_sides_of_a_union_keep_their_ids_apart(rt: HostRuntime) {
    let alloc = rt.alloc();
    assert!(rt; gives(alloc, &twice(&rt, alloc), "<#1 1 2.5000; >#1 1 2.5000; "));
}
