//! A join has more columns inside than a dataset may have. `w` and `z` have 17 columns each, and one row with the numbers 1 to 17.
ghost use Rattle.std.specs.Prelude.{IfOk};
ghost use Rattle.dataset_types.specs.Tables.{Distinct, row_ids};

use crate::tests::{add, gives, one_row, plain, table};
use dataset_types::{Column, Columns, Env, MarkedValues};
use std::alloc::Global;
use std::process::Abort;
use std::test::*;
use value_types::{ColumnType, NoMemory, Value, read_name};

/// Columns of whole numbers, called by a letter and a number.
fn wide_columns(alloc: Global, letter: &str) -> Result<Columns, NoMemory> {
    let mut columns = Columns::new(alloc)?;
    for i in 1..18u32 {
        let text = format!(in alloc; "{letter}{i}")?;
        let name = read_name(text.as_bytes()).ok_or(NoMemory)?;
        let kind = ColumnType::Int;
        columns.push(alloc, Column { name, kind })?;
    }
    Ok(columns)
}

fn wide_values(alloc: Global) -> Result<MarkedValues, NoMemory> {
    let mut values = MarkedValues::new(alloc)?;
    for i in 1..18u32 {
        values.push(alloc, plain(Value::Int(i as i64)))?;
    }
    Ok(values)
}

fn wide_datasets(rt: &impl Abort, alloc: Global) -> Result<Env, NoMemory> {
    let mut env = Env::new(alloc)?;
    let rows = one_row(alloc, wide_values(alloc)?)?;
    let w = table(rt, alloc, wide_columns(alloc, "a")?, rows, false)?;
    add(alloc, &mut env, "w", w, false)?;
    let rows = one_row(alloc, wide_values(alloc)?)?;
    let z = table(rt, alloc, wide_columns(alloc, "b")?, rows, false)?;
    add(alloc, &mut env, "z", z, false)?;
    Ok(env)
}

#[test]
fn a_join_may_have_more_columns_than_a_dataset(rt: HostRuntime) {
    let alloc = rt.alloc();
    let env = wide_datasets(&rt, alloc).expect(&rt, "memory");
    let cases: [(&str, &str); 5] = [
        (
            "select a1, b17 from w join z on a2 = b2 where a17 = b17",
            "(#1,#1) 1 17; ",
        ),
        (
            "select b17, count(*) as n from w left join z on a1 = b2 group by b17",
            "[null] null 1; ",
        ),
        ("select * from w join z on true", "TooLarge"),
        ("select * from w join z on false", "TooLarge"),
        ("select * from w join w as z on true", "NameTaken"),
    ];
    for (text, want) in cases.iter() {
        assert!(rt; gives(alloc, &env, text, want));
    }
}
