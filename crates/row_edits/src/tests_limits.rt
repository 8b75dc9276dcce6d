//! Results at the limits of text, rows and values, and beyond them.
ghost use Rattle.std.specs.Prelude.{IfOk};
ghost use Rattle.dataset_types.specs.Tables.{Distinct, row_ids};

use crate::tests::{gives, inserted, made, named, set};
use cell_errors::EvalFault;
use dataset_types::{
    Column, Columns, Marked, MarkedValues, Row, Rows, Table, all_sure, law_of_numbers,
    names_distinct, rows_fit,
};
use std::alloc::Global;
use std::process::Abort;
use std::test::*;
use value_types::{ArcOf, ColumnType, NoMemory, RowId, Value, Words};

// Half of the bytes of text that a dataset may hold.
const HALF: u32 = 524_288;

fn text_of(alloc: Global, bytes: u32) -> Result<Value, NoMemory> {
    let mut text = Words::new(alloc)?;
    for _ in 0..bytes {
        text.push_char(alloc, 'x')?;
    }
    Ok(Value::Text(text))
}

fn columns(alloc: Global) -> Result<Columns, NoMemory> {
    let mut columns = Columns::new(alloc)?;
    for name in ["a", "b"] {
        let name = named(name)?;
        let kind = ColumnType::Text;
        columns.push(alloc, Column { name, kind })?;
    }
    Ok(columns)
}

fn values(alloc: Global) -> Result<MarkedValues, NoMemory> {
    let mut values = MarkedValues::new(alloc)?;
    for value in [text_of(alloc, HALF)?, Value::Null] {
        values.push(
            alloc,
            Marked {
                value,
                marked: false,
            },
        )?;
    }
    Ok(values)
}

fn rows(alloc: Global) -> Result<Rows, NoMemory>
    ensures { IfOk result (λ rows. Distinct (row_ids rows)) }
{
    let mut rows = Rows::new(alloc)?;
    let values = values(alloc)?;
    rows.push(
        alloc,
        Row {
            id: RowId::Rec(1),
            sure: true,
            values,
        },
    )?;
    law_of_numbers(&rows);
    Ok(rows)
}

// One row, whose id takes two bytes and its first value half of what may be there.
fn half_full(rt: &impl Abort, alloc: Global) -> Result<ArcOf<Table>, EvalFault> {
    let columns = columns(alloc)?;
    let rows = rows(alloc)?;
    assert!(rt; names_distinct(columns.as_slice()));
    assert!(rt; rows_fit(columns.as_slice(), rows.as_slice()));
    assert!(rt; all_sure(rows.as_slice()));
    made(alloc, Table::new(alloc, columns, rows, false, false))
}

fn filled(rt: &impl Abort, alloc: Global, bytes: u32) -> Result<ArcOf<Table>, EvalFault> {
    let table = half_full(rt, alloc)?;
    set(alloc, &table, "#1", "b", &text_of(alloc, bytes)?)
}

fn filled_and_inserted(
    rt: &impl Abort,
    alloc: Global,
    bytes: u32,
) -> Result<ArcOf<Table>, EvalFault> {
    inserted(alloc, &filled(rt, alloc, bytes)?, "z", "#1")
}

#[test]
fn a_value_is_set_up_to_the_limit_of_text(rt: HostRuntime) {
    let alloc = rt.alloc();
    assert!(rt; filled(&rt, alloc, HALF - 2).is_ok());
    assert!(rt; gives(alloc, &filled(&rt, alloc, HALF - 1), "TooLarge"));
}

#[test]
fn the_id_of_a_new_row_counts_as_text(rt: HostRuntime) {
    let alloc = rt.alloc();
    assert!(rt; filled_and_inserted(&rt, alloc, HALF - 4).is_ok());
    assert!(rt;
        gives(
            alloc,
            &filled_and_inserted(&rt, alloc, HALF - 3),
            "TooLarge"
        )
    );
}

// Full to the last byte, with a row `@z`.
fn full(rt: &impl Abort, alloc: Global) -> Result<ArcOf<Table>, EvalFault> {
    filled_and_inserted(rt, alloc, HALF - 4)
}

#[test]
fn a_row_that_is_not_there_or_is_there_already_is_told_before_the_limit(
    rt: HostRuntime,
) -> Result<(), Fail> {
    let alloc = rt.alloc();
    let table = full(&rt, alloc).expect(&rt, "memory");
    for (row, after, want) in [
        ("y", "#1", "TooLarge"),
        ("y", "#9", "NoRow"),
        ("z", "#1", "RowTaken"),
        ("z", "#9", "NoRow"),
    ] {
        assert!(rt;
            gives(alloc, &inserted(alloc, &table, row, after), want),
            "{row} after {after}"
        );
    }
    Ok(())
}

// Unmarked NULLs.
fn nulls(alloc: Global, count: usize) -> Result<MarkedValues, NoMemory> {
    let mut values = MarkedValues::new(alloc)?;
    for _ in 0..count {
        let value = Value::Null;
        let marked = false;
        values.push(alloc, Marked { value, marked })?;
    }
    Ok(values)
}

// As many rows, numbered from 1.
#[tactic(auto, using(dataset_types::proofs::TableLemmas::numbered_push, dataset_types::proofs::TableLemmas::distinct_numbered))]
fn numbered_rows(alloc: Global, count: u32, width: usize) -> Result<Rows, NoMemory>
    ensures { IfOk result (λ rows. Distinct (row_ids rows)) }
{
    let mut rows = Rows::new(alloc)?;
    for n in 0..count {
        let values = nulls(alloc, width)?;
        rows.push(
            alloc,
            Row {
                id: RowId::Rec(n + 1),
                sure: true,
                values,
            },
        )?;
    }
    Ok(rows)
}

fn many(
    rt: &impl Abort,
    alloc: Global,
    columns: Columns,
    count: u32,
) -> Result<ArcOf<Table>, EvalFault> {
    let rows = numbered_rows(alloc, count, columns.len())?;
    assert!(rt; names_distinct(columns.as_slice()));
    assert!(rt; rows_fit(columns.as_slice(), rows.as_slice()));
    assert!(rt; all_sure(rows.as_slice()));
    made(alloc, Table::new(alloc, columns, rows, false, false))
}

// A row more in a dataset of so many rows.
fn one_more(
    rt: &impl Abort,
    alloc: Global,
    columns: Columns,
    count: u32,
) -> Result<ArcOf<Table>, EvalFault> {
    inserted(alloc, &many(rt, alloc, columns, count)?, "z", "#2")
}

fn one_more_of_two(rt: &impl Abort, alloc: Global, count: u32) -> Result<ArcOf<Table>, EvalFault> {
    one_more(rt, alloc, columns(alloc)?, count)
}

fn one_more_of_none(rt: &impl Abort, alloc: Global, count: u32) -> Result<ArcOf<Table>, EvalFault> {
    one_more(rt, alloc, Columns::new(alloc)?, count)
}

#[test]
fn there_are_65_536_values_at_most(rt: HostRuntime) {
    let alloc = rt.alloc();
    assert!(rt; one_more_of_two(&rt, alloc, 32_767).is_ok());
    assert!(rt; gives(alloc, &one_more_of_two(&rt, alloc, 32_768), "TooLarge"));
}

#[test]
fn there_are_65_536_rows_at_most(rt: HostRuntime) {
    let alloc = rt.alloc();
    assert!(rt; one_more_of_none(&rt, alloc, 65_535).is_ok());
    assert!(rt; gives(alloc, &one_more_of_none(&rt, alloc, 65_536), "TooLarge"));
}
