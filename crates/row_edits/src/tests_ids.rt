//! Rows under ids of each kind, found by their texts.
//!
//! What other test modules call has no contract: tests look at what they get.
ghost use Rattle.std.specs.Prelude.{IfOk};
ghost use Rattle.dataset_types.specs.Tables.{Distinct, row_ids};

use crate::tests::{columns, deleted, gives, inserted, made, named, set, values, words};
use cell_errors::EvalFault;
use dataset_types::{Row, Rows, Table, all_sure, names_distinct, rows_fit};
use sqlite_items::Boxed;
use std::alloc::Global;
use std::process::Abort;
use std::test::*;
use value_types::{ArcOf, NoMemory, RowId, Value, Values};

pub(crate) fn key(alloc: Global) -> Result<RowId, NoMemory> {
    let mut key = Values::new(alloc)?;
    key.push(alloc, Value::Text(words(alloc, "k")?))?;
    key.push(alloc, Value::Int(-2))?;
    key.push(alloc, Value::Null)?;
    Ok(RowId::Key(key))
}

// The id of a row that was joined with a group's.
pub(crate) fn pair(alloc: Global) -> Result<RowId, NoMemory> {
    let left = Boxed::new(alloc, RowId::Rec(1))?;
    let right = Boxed::new(alloc, key(alloc)?)?;
    Ok(RowId::Pair(left, right))
}

pub(crate) fn inserted_id() -> Result<RowId, NoMemory> {
    Ok(RowId::Named(named("new")?))
}

pub(crate) fn alone(alloc: Global) -> Result<RowId, NoMemory> {
    Ok(RowId::Alone(Boxed::new(alloc, RowId::Rec(12))?))
}

pub(crate) fn first(alloc: Global) -> Result<RowId, NoMemory> {
    Ok(RowId::First(Boxed::new(alloc, pair(alloc)?)?))
}

pub(crate) fn second(alloc: Global) -> Result<RowId, NoMemory> {
    Ok(RowId::Second(Boxed::new(alloc, RowId::Emit(3))?))
}

#[tactic(auto, using(crate::proofs::Ids::one_id))]
pub(crate) fn one_row(alloc: Global, row: Row) -> Result<Rows, NoMemory>
    ensures { IfOk result (λ rows. Distinct (row_ids rows)) }
{
    let mut rows = Rows::new(alloc)?;
    rows.push(alloc, row)?;
    Ok(rows)
}

// A table of one row, under this id.
fn under(
    rt: &impl Abort,
    alloc: Global,
    id: Result<RowId, NoMemory>,
) -> Result<ArcOf<Table>, EvalFault> {
    let row = Row {
        id: id?,
        sure: true,
        values: values(alloc, 1, Value::Null, false)?,
    };
    let columns = columns(alloc)?;
    let rows = one_row(alloc, row)?;
    assert!(rt; names_distinct(columns.as_slice()));
    assert!(rt; rows_fit(columns.as_slice(), rows.as_slice()));
    assert!(rt; all_sure(rows.as_slice()));
    made(alloc, Table::new(alloc, columns, rows, false, false))
}

// Whether this text alone finds the row: it can be deleted by it, and not by another.
fn finds(
    rt: &impl Abort,
    alloc: Global,
    id: Result<RowId, NoMemory>,
    text: &str,
    other: &str,
) -> bool {
    match under(rt, alloc, id) {
        Ok(table) => {
            gives(alloc, &deleted(alloc, &table, text), "")
                && gives(alloc, &deleted(alloc, &table, other), "NoRow")
                && gives(alloc, &inserted(alloc, &table, "z", other), "NoRow")
                && gives(
                    alloc,
                    &set(alloc, &table, other, "n", &Value::Int(2)),
                    "NoRow",
                )
        }
        Err(_) => false,
    }
}

#[test]
fn a_row_of_a_load_is_found_by_its_number(rt: HostRuntime) {
    let alloc = rt.alloc();
    assert!(rt; finds(&rt, alloc, Ok(RowId::Rec(1)), "#1", "#01"));
    assert!(rt;
        finds(
            &rt,
            alloc,
            Ok(RowId::Rec(u32::MAX)),
            "#4294967295",
            "#429496729"
        )
    );
    assert!(rt; finds(&rt, alloc, Ok(RowId::Rec(20)), "#20", "+20"));
}

#[test]
fn an_emitted_row_and_an_inserted_one_are_found_by_number_and_name(rt: HostRuntime) {
    let alloc = rt.alloc();
    assert!(rt; finds(&rt, alloc, Ok(RowId::Emit(20)), "+20", "#20"));
    assert!(rt; finds(&rt, alloc, inserted_id(), "@new", "new"));
    assert!(rt; finds(&rt, alloc, inserted_id(), "@new", "@neu"));
}

#[test]
fn a_joined_row_is_found_by_both_ids(rt: HostRuntime) {
    let alloc = rt.alloc();
    let text = "(#1,[\"k\",-2,null])";
    assert!(rt; finds(&rt, alloc, pair(alloc), text, "(#1,[k,-2,null])"));
    assert!(rt; finds(&rt, alloc, pair(alloc), text, "(#1, [\"k\",-2,null])"));
    assert!(rt; finds(&rt, alloc, alone(alloc), "(#12,-)", "(#12)"));
}

#[test]
fn the_row_of_a_group_is_found_by_its_values(rt: HostRuntime) {
    let alloc = rt.alloc();
    assert!(rt; finds(&rt, alloc, key(alloc), "[\"k\",-2,null]", "[\"k\",-2,NULL]"));
}

#[test]
fn a_row_of_a_union_is_found_by_its_side(rt: HostRuntime) {
    let alloc = rt.alloc();
    assert!(rt;
        finds(
            &rt,
            alloc,
            first(alloc),
            "<(#1,[\"k\",-2,null])",
            ">(#1,[\"k\",-2,null])"
        )
    );
    assert!(rt; finds(&rt, alloc, second(alloc), ">+3", "<+3"));
}
