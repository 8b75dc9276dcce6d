//! As many values as a table may hold, and more.
ghost use Rattle.std.specs.Prelude.{IfOk};
ghost use Rattle.dataset_types.specs.Tables.{Distinct, row_ids};

use crate::insert_column;
use crate::tests::{columns, gives, named, shared};
use cell_errors::EvalFault;
use dataset_types::{Marked, MarkedValues, Row, Rows, Table, names_distinct, rows_fit};
use std::alloc::Global;
use std::process::Abort;
use std::test::*;
use value_types::{ArcOf, ColumnType, NoMemory, RowId, Value};

// Two NULLs.
fn nulls(alloc: Global) -> Result<MarkedValues, NoMemory> {
    let mut values = MarkedValues::new(alloc)?;
    for _ in 0..2u8 {
        let value = Value::Null;
        let marked = false;
        values.push(alloc, Marked { value, marked })?;
    }
    Ok(values)
}

// As many rows, numbered from 1.
#[tactic(auto, using(dataset_types::proofs::TableLemmas::numbered_push, dataset_types::proofs::TableLemmas::distinct_numbered))]
fn numbered_rows(alloc: Global, count: u32) -> Result<Rows, NoMemory>
    ensures { IfOk result (λ rows. Distinct (row_ids rows)) }
{
    let mut rows = Rows::new(alloc)?;
    for n in 0..count {
        let values = nulls(alloc)?;
        rows.push(
            alloc,
            Row {
                id: RowId::Rec(n + 1),
                sure: true,
                values,
            },
        )?;
    }
    Ok(rows)
}

fn many(rt: &impl Abort, alloc: Global, count: u32) -> Result<ArcOf<Table>, EvalFault> {
    let columns = columns(alloc, &[("a", ColumnType::Int), ("b", ColumnType::Int)])?;
    let rows = numbered_rows(alloc, count)?;
    assert!(rt; names_distinct(columns.as_slice()));
    assert!(rt; rows_fit(columns.as_slice(), rows.as_slice()));
    shared(alloc, Table::new(alloc, columns, rows, true, false))
}

// A third column in so many rows.
fn one_more(rt: &impl Abort, alloc: Global, count: u32) -> Result<ArcOf<Table>, EvalFault> {
    let table = many(rt, alloc, count)?;
    insert_column(alloc, table.get(), &named("c")?, ColumnType::Int, 3)
}

#[test]
fn there_are_65_536_values_at_most(rt: HostRuntime) {
    let alloc = rt.alloc();
    assert!(rt; one_more(&rt, alloc, 21_845).is_ok());
    assert!(rt; gives(alloc, &one_more(&rt, alloc, 21_846), "TooLarge"));
}
