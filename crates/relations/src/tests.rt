//! Each call that may want memory, over a dataset of one row.
ghost use Rattle.std.specs.Prelude.{IfOk};
ghost use Rattle.dataset_types.specs.Tables.{Distinct, row_ids};

use crate::{Batch, ColumnPlaces, Rel, Test, bind, bind_again, bind_more, test_row};
use cell_errors::EvalFault;
use dataset_types::{
    Column, Columns, Marked, MarkedValues, Picks, Row, Rows, Table, all_sure, law_of_numbers,
    names_distinct, rows_fit, table_same,
};
use expr_lang::Expr;
use expr_meaning::Bindings;
use std::alloc::Global;
use std::process::Abort;
use std::test::*;
use value_types::{ColumnType, Name, NoMemory, RowId, Value, read_name};

fn named(text: &str) -> Result<Name, NoMemory> {
    read_name(text.as_bytes()).ok_or(NoMemory)
}

fn row_of(alloc: Global, n: i64) -> Result<Row, NoMemory> {
    let mut values = MarkedValues::new(alloc)?;
    let value = Value::Int(n);
    values.push(
        alloc,
        Marked {
            value,
            marked: true,
        },
    )?;
    Ok(Row {
        id: RowId::Rec(1),
        sure: true,
        values,
    })
}

fn rows_of(alloc: Global, n: i64) -> Result<Rows, NoMemory>
    ensures { IfOk result (λ rows. Distinct (row_ids rows)) }
{
    let mut rows = Rows::new(alloc)?;
    let Row { sure, values, .. } = row_of(alloc, n)?;
    let id = RowId::Rec(1);
    rows.push(alloc, Row { id, sure, values })?;
    law_of_numbers(&rows);
    Ok(rows)
}

// The dataset with the one marked value 7.
fn dataset(rt: &impl Abort, alloc: Global) -> Result<Table, EvalFault> {
    let mut columns = Columns::new(alloc)?;
    let name = named("a")?;
    let kind = ColumnType::Int;
    columns.push(alloc, Column { name, kind })?;
    let rows = rows_of(alloc, 7)?;
    assert!(rt; names_distinct(columns.as_slice()));
    assert!(rt; rows_fit(columns.as_slice(), rows.as_slice()));
    assert!(rt; all_sure(rows.as_slice()));
    match Table::new(alloc, columns, rows, false, true) {
        Ok(table) => Ok(table),
        Err(_) => Err(EvalFault::NoMemory),
    }
}

// The same as `t`.
fn sevens(rt: &impl Abort, alloc: Global) -> Result<Rel, EvalFault> {
    let table = dataset(rt, alloc)?;
    Ok(Rel::of_table(alloc, &table, &Some(named("t")?))?)
}

#[tactic(auto, using(crate::proofs::FromTable::names_again))]
fn again(alloc: Global, table: &Table) -> Result<Table, EvalFault> {
    table.law_of_rules();
    let rel = Rel::of_table(alloc, table, &None)?;
    rel.into_table(alloc)
}

#[test]
fn a_relation_of_a_dataset_is_that_dataset_again(rt: HostRuntime) {
    let alloc = rt.alloc();
    let table = dataset(&rt, alloc).expect(&rt, "memory");
    let second = again(alloc, &table).expect(&rt, "memory");
    assert!(rt; table_same(&table, &second));
}

fn bound(rt: &impl Abort, alloc: Global) -> Result<Bindings, EvalFault> {
    let rel = sevens(rt, alloc)?;
    let row = rel.rows().get(0).ok_or(NoMemory)?;
    Ok(bind(alloc, rel.columns().as_slice(), row.values.as_slice())?)
}

// TRUE over the row.
fn tested(rt: &impl Abort, alloc: Global) -> Result<Test, EvalFault> {
    let row = bound(rt, alloc)?;
    let condition = Expr::Literal(Value::Bool(true));
    test_row(alloc, &condition, &row, &Picks::new(alloc)?, 1)
}

#[test]
fn a_dataset_is_a_relation_under_its_qualifier(rt: HostRuntime) {
    let alloc = rt.alloc();
    let rel = sevens(&rt, alloc).expect(&rt, "memory");
    assert!(rt; rel.is_loose() && !rel.is_open());
    assert_eq!(rt; rel.rows().len(), 1);
    let columns = rel.columns().as_slice();
    assert_eq!(rt; columns.len(), 1);
    assert!(rt; columns.iter().all(|column| column.qualifier.is_some()));
}

#[test]
fn a_row_is_bound_and_tested(rt: HostRuntime) {
    let alloc = rt.alloc();
    let row = bound(&rt, alloc).expect(&rt, "memory");
    assert_eq!(rt; row.len(), 1);
    assert!(rt; row.as_slice().iter().all(|binding| binding.value.marked));
    let test = tested(&rt, alloc).expect(&rt, "memory");
    assert!(rt; test.holds && !test.marked);
}

// The row, bound twice over.
fn bound_twice(rt: &impl Abort, alloc: Global) -> Result<Bindings, EvalFault> {
    let mut all = bound(rt, alloc)?;
    let rel = sevens(rt, alloc)?;
    let row = rel.rows().get(0).ok_or(NoMemory)?;
    bind_more(
        alloc,
        &mut all,
        rel.columns().as_slice(),
        row.values.as_slice(),
    )?;
    Ok(all)
}

#[test]
fn further_columns_are_bound_after_those_that_are_there(rt: HostRuntime) {
    let alloc = rt.alloc();
    let all = bound_twice(&rt, alloc).expect(&rt, "memory");
    assert_eq!(rt; all.len(), 2);
    assert!(rt; all.as_slice().iter().all(|binding| binding.value.marked));
}

// The values of a row with 8, put in place of those of a row that is bound after none.
#[tactic(auto, using(crate::proofs::Revalued::under))]
fn bound_again(rt: &impl Abort, alloc: Global) -> Result<Bindings, EvalFault> {
    let rel = sevens(rt, alloc)?;
    let columns = rel.columns().as_slice();
    let mut all = Bindings::new(alloc)?;
    bind_again(
        alloc,
        &mut all,
        columns,
        row_of(alloc, 7)?.values.as_slice(),
    )?;
    bind_again(
        alloc,
        &mut all,
        columns,
        row_of(alloc, 8)?.values.as_slice(),
    )?;
    Ok(all)
}

#[test]
fn a_row_that_is_bound_again_has_its_own_values(rt: HostRuntime) {
    let alloc = rt.alloc();
    let all = bound_again(&rt, alloc).expect(&rt, "memory");
    assert_eq!(rt; all.len(), 1);
    assert!(rt;
        all.as_slice()
            .iter()
            .all(|binding| binding.value.value == Value::Int(8))
    );
}

fn column_place(rt: &impl Abort, alloc: Global, name: &str) -> Result<Option<usize>, EvalFault> {
    let rel = sevens(rt, alloc)?;
    let places = ColumnPlaces::new(alloc, rel.columns().as_slice())?;
    let qualifier = Some(named("t")?);
    let name = named(name)?;
    Ok(places.column_place(&Expr::Column { qualifier, name }))
}

#[test]
fn a_column_is_found_at_its_place(rt: HostRuntime) {
    let alloc = rt.alloc();
    let there = column_place(&rt, alloc, "a").expect(&rt, "memory");
    assert_eq!(rt; there, Some(0));
    let missing = column_place(&rt, alloc, "b").expect(&rt, "memory");
    assert_eq!(rt; missing, None);
}

fn doubted(alloc: Global) -> Result<Batch, NoMemory> {
    let mut all = Batch::new(alloc)?;
    let mut more = Batch::new(alloc)?;
    let test = Test {
        holds: true,
        marked: true,
    };
    more.keep(alloc, row_of(alloc, 7)?, test)?;
    all.add(alloc, more)?;
    Ok(all)
}

#[test]
fn a_row_is_unsure_where_its_test_is_marked(rt: HostRuntime) {
    let alloc = rt.alloc();
    let batch = doubted(alloc).expect(&rt, "memory");
    assert!(rt; batch.marked);
    assert_eq!(rt; batch.rows.len(), 1);
    assert!(rt; batch.rows.as_slice().iter().all(|row| !row.sure));
}
