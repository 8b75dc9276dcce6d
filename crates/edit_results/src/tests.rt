//! A result that becomes a dataset, and Ints at both ends of those that widen.
ghost use Rattle.std.specs.Prelude.{IfOk};
ghost use Rattle.dataset_types.specs.Tables.{Distinct, row_ids};

use super::*;
use cell_errors::{CellError, EvalFault};
use dataset_types::{
    Column, Columns, Marked, MarkedValues, Row, Rows, Table, names_distinct, rows_fit,
};
use std::alloc::Global;
use std::process::Abort;
use std::test::*;
use value_types::{ArcOf, ColumnType, NoMemory, RowId, Value, read_name};

fn one_column(alloc: Global) -> Result<Columns, NoMemory> {
    let name = read_name(b"n").ok_or(NoMemory)?;
    let kind = ColumnType::Int;
    let mut columns = Columns::new(alloc)?;
    columns.push(alloc, Column { name, kind })?;
    Ok(columns)
}

// The row `?#1: ~7`.
#[tactic(auto, using(dataset_types::proofs::TableLemmas::distinct_one))]
fn one_row(alloc: Global) -> Result<Rows, NoMemory>
    ensures { IfOk result (λ rows. Distinct (row_ids rows)) }
{
    let value = Value::Int(7);
    let marked = true;
    let mut values = MarkedValues::new(alloc)?;
    values.push(alloc, Marked { value, marked })?;
    let id = RowId::Rec(1);
    let sure = false;
    let mut rows = Rows::new(alloc)?;
    rows.push(alloc, Row { id, sure, values })?;
    Ok(rows)
}

fn made(rt: &impl Abort, alloc: Global) -> Result<ArcOf<Table>, EvalFault> {
    let columns = one_column(alloc)?;
    let rows = one_row(alloc)?;
    assert!(rt; names_distinct(columns.as_slice()));
    assert!(rt; rows_fit(columns.as_slice(), rows.as_slice()));
    whole_table(alloc, columns, rows, true, false)
}

#[test]
fn columns_and_rows_become_a_dataset(rt: HostRuntime) {
    let table = made(&rt, rt.alloc()).expect(&rt, "memory");
    let table = table.get();
    assert!(rt; table.columns().len() == 1 && table.rows().len() == 1);
    assert!(rt; table.is_open() && !table.is_loose());
    assert!(rt;
        table
            .rows()
            .as_slice()
            .iter()
            .all(|row| row.id == RowId::Rec(1) && !row.sure)
    );
}

#[test]
fn an_int_is_widened_where_it_fits(rt: HostRuntime) {
    let cases = [
        (922_337_203_685_477, Some(9_223_372_036_854_770_000)),
        (922_337_203_685_478, None),
        (-922_337_203_685_477, Some(-9_223_372_036_854_770_000)),
        (-922_337_203_685_478, None),
    ];
    for (n, count) in cases {
        match (as_fixed(n), count) {
            (Ok(Value::Fixed(m)), Some(count)) => assert!(rt; m == count, "{n}"),
            (Err(CellError::Overflow), None) => {}
            _ => panic!(rt; "{n}"),
        }
    }
}
