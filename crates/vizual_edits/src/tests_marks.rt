//! What each of the fourteen commands leaves of caveats: each runs on one dataset in doubt, which is open, has an unsure row and a marked
//! value in each row, and is loose where a test says so.
ghost use Rattle.std.specs.Prelude.{IfOk};
ghost use Rattle.dataset_types.specs.Tables.{Distinct, row_ids};

use crate::tests_commands::*;
use crate::tests_shown::does;
use dataset_types::{
    Column, Columns, Env, Marked, MarkedValues, Row, Rows, Slot, Table, law_of_numbers,
    names_distinct, rows_fit,
};
use sheet_commands::Command;
use std::alloc::Global;
use std::test::*;
use value_types::{ArcOf, ColumnType, NoMemory, RowId, Value};

fn columns(alloc: Global) -> Result<Columns, NoMemory> {
    let mut columns = Columns::new(alloc)?;
    for name in ["a", "b"] {
        let name = named(name)?;
        let kind = ColumnType::Int;
        columns.push(alloc, Column { name, kind })?;
    }
    Ok(columns)
}

fn values(alloc: Global, both: [(i64, bool); 2]) -> Result<MarkedValues, NoMemory> {
    let mut values = MarkedValues::new(alloc)?;
    for (number, marked) in both {
        let value = Value::Int(number);
        values.push(alloc, Marked { value, marked })?;
    }
    Ok(values)
}

fn rows(alloc: Global) -> Result<Rows, NoMemory>
    ensures { IfOk result (λ rows. Distinct (row_ids rows)) }
{
    let mut rows = Rows::new(alloc)?;
    let first = Row {
        id: RowId::Rec(1),
        sure: true,
        values: values(alloc, [(1, false), (2, true)])?,
    };
    rows.push(alloc, first)?;
    let second = Row {
        id: RowId::Rec(2),
        sure: false,
        values: values(alloc, [(3, true), (4, false)])?,
    };
    rows.push(alloc, second)?;
    law_of_numbers(&rows);
    Ok(rows)
}

fn table(alloc: Global, is_loose: bool) -> Result<ArcOf<Table>, NoMemory> {
    let columns = columns(alloc)?;
    let rows = rows(alloc)?;
    if !names_distinct(columns.as_slice()) {
        return Err(NoMemory);
    }
    if !rows_fit(columns.as_slice(), rows.as_slice()) {
        return Err(NoMemory);
    }
    match Table::new(alloc, columns, rows, true, is_loose) {
        Ok(table) => ArcOf::new(alloc, table),
        Err(_) => Err(NoMemory),
    }
}

fn env(alloc: Global, is_loose: bool) -> Result<Env, NoMemory> {
    let mut env = Env::new(alloc)?;
    let slot = Slot {
        table: Some(table(alloc, is_loose)?),
        doubt: true,
    };
    env.set(alloc, named("u")?, slot)?;
    Ok(env)
}

// What a command makes of the dataset `a b | #1 1 ~2 | ?#2 ~3 4 | open `, and `loose ` where it is.
fn makes(alloc: Global, is_loose: bool, command: Result<Command, NoMemory>, want: &str) -> bool {
    match env(alloc, is_loose) {
        Ok(mut env) => does(alloc, &mut env, command, want),
        Err(_) => false,
    }
}

fn loose(alloc: Global, command: Result<Command, NoMemory>, want: &str) -> bool {
    makes(alloc, true, command, want)
}

fn ordered(alloc: Global, command: Result<Command, NoMemory>, want: &str) -> bool {
    makes(alloc, false, command, want)
}

#[test]
fn commands_on_columns_keep_caveats(rt: HostRuntime) {
    let alloc = rt.alloc();
    let inserted = "?u: a c b | #1 1 null ~2 | ?#2 ~3 null 4 | open loose ";
    assert!(rt; loose(alloc, insert_column("u", "c", 2), inserted));
    let deleted = "?u: b | #1 ~2 | ?#2 4 | open loose ";
    assert!(rt; loose(alloc, delete_column("u", "a"), deleted));
    let renamed = "?u: c b | #1 1 ~2 | ?#2 ~3 4 | open loose ";
    assert!(rt; loose(alloc, rename_column("u", "a", "c"), renamed));
    let turned = "?u: b a | #1 ~2 1 | ?#2 4 ~3 | open loose ";
    assert!(rt; loose(alloc, move_column("u", "a", 2), turned));
    assert!(rt; loose(alloc, keep_columns(alloc, "u", ["b", "a"]), turned));
}

// A dataset stays open without its unsure row.
#[test]
fn commands_on_rows_keep_caveats(rt: HostRuntime) {
    let alloc = rt.alloc();
    let inserted = "?u: a b | @z null null | #1 1 ~2 | ?#2 ~3 4 | open loose ";
    assert!(rt; loose(alloc, insert_row(alloc, "u", "z", ""), inserted));
    let deleted = "?u: a b | #1 1 ~2 | open loose ";
    assert!(rt; loose(alloc, delete_row(alloc, "u", "#2"), deleted));
    let moved = "?u: a b | ?#2 ~3 4 | #1 1 ~2 | open loose ";
    assert!(rt; loose(alloc, move_row(alloc, "u", "#2", ""), moved));
    assert!(rt; loose(alloc, sort(alloc, "u", "a"), moved));
}

// A formula's value has the expression's mark, whatever stood there; what is set has none. An unsure row stays one.
#[test]
fn values_are_set_without_a_mark_and_computed_with_that_of_their_formula(rt: HostRuntime) {
    let alloc = rt.alloc();
    let set = "?u: a b | #1 1 ~2 | ?#2 7 4 | open loose ";
    assert!(rt; loose(alloc, set_value(alloc, "u", "#2", 7), set));
    let copied = "?u: a b | #1 ~2 ~2 | ?#2 4 4 | open loose ";
    assert!(rt; loose(alloc, formula(alloc, "u", "b"), copied));
    let summed = "?u: a b | #1 ~3 ~2 | ?#2 ~7 4 | open loose ";
    assert!(rt; loose(alloc, formula(alloc, "u", "a + b"), summed));
    let same = "?u: a b | #1 5 ~2 | ?#2 5 4 | open loose ";
    assert!(rt; loose(alloc, formula(alloc, "u", "5"), same));
}

// Whether there is a dropped dataset is not in doubt.
#[test]
fn datasets_take_their_caveats_along(rt: HostRuntime) {
    let alloc = rt.alloc();
    let renamed = "?v: a b | #1 1 ~2 | ?#2 ~3 4 | open loose u: none";
    assert!(rt; loose(alloc, rename("u", "v"), renamed));
    let copied = "?v: a b | #1 1 ~2 | ?#2 ~3 4 | open loose ";
    assert!(rt; loose(alloc, copy("u", "v"), copied));
    assert!(rt; loose(alloc, drop("u"), "u: none"));
}

#[test]
fn an_order_that_rests_on_a_caveat_is_loose(rt: HostRuntime) {
    let alloc = rt.alloc();
    let after_unsure = "?u: a b | #1 1 ~2 | ?#2 ~3 4 | @z null null | open loose ";
    assert!(rt; ordered(alloc, insert_row(alloc, "u", "z", "#2"), after_unsure));
    let moved = "?u: a b | ?#2 ~3 4 | #1 1 ~2 | open loose ";
    assert!(rt; ordered(alloc, move_row(alloc, "u", "#1", "#2"), moved));
    assert!(rt; ordered(alloc, sort(alloc, "u", "b"), moved));
}

// A row after itself, and a sort where the marked key is an unsure row's.
#[test]
fn any_other_order_stays_certain(rt: HostRuntime) {
    let alloc = rt.alloc();
    let after_sure = "?u: a b | #1 1 ~2 | @z null null | ?#2 ~3 4 | open ";
    assert!(rt; ordered(alloc, insert_row(alloc, "u", "z", "#1"), after_sure));
    let same = "?u: a b | #1 1 ~2 | ?#2 ~3 4 | open ";
    assert!(rt; ordered(alloc, move_row(alloc, "u", "#2", "#2"), same));
    assert!(rt; ordered(alloc, move_row(alloc, "u", "#2", "#1"), same));
    let turned = "?u: a b | ?#2 ~3 4 | #1 1 ~2 | open ";
    assert!(rt; ordered(alloc, sort(alloc, "u", "a"), turned));
}
