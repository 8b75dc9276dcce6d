//! A dataset in doubt through each of the fourteen commands, one after another: it stays in doubt under each name, and what is gone
//! leaves none.
use crate::tests::env;
use crate::tests_commands::*;
use crate::tests_shown::does;
use dataset_types::Env;
use std::alloc::Global;
use std::test::*;
use value_types::NoMemory;

#[test]
fn its_columns_change_in_doubt(rt: HostRuntime) -> Result<(), Fail> {
    let alloc = rt.alloc();
    let mut env = env(alloc)?;
    assert!(rt; does(alloc, &mut env, insert_column("u", "a", 1), "?u: a "));
    assert!(rt; does(alloc, &mut env, insert_column("u", "b", 1), "?u: b a "));
    assert!(rt; does(alloc, &mut env, rename_column("u", "b", "c"), "?u: c a "));
    assert!(rt; does(alloc, &mut env, rename_column("u", "a", "a"), "?u: c a "));
    assert!(rt; does(alloc, &mut env, move_column("u", "c", 2), "?u: a c "));
    assert!(rt; does(alloc, &mut env, move_column("u", "c", 2), "?u: a c "));
    assert!(rt;
        does(
            alloc,
            &mut env,
            keep_columns(alloc, "u", ["c", "a"]),
            "?u: c a "
        )
    );
    assert!(rt; does(alloc, &mut env, delete_column("u", "c"), "?u: a "));
    Ok(())
}

// A dataset in doubt with a column and two rows.
fn with_rows(alloc: Global) -> Result<Env, NoMemory> {
    let mut env = env(alloc)?;
    let x = insert_row(alloc, "u", "x", "");
    let y = insert_row(alloc, "u", "y", "@x");
    let made = does(alloc, &mut env, insert_column("u", "a", 1), "?u: a ")
        && does(alloc, &mut env, x, "?u: a | @x null ")
        && does(alloc, &mut env, y, "?u: a | @x null | @y null ");
    if made { Ok(env) } else { Err(NoMemory) }
}

#[test]
fn its_rows_change_in_doubt(rt: HostRuntime) -> Result<(), Fail> {
    let alloc = rt.alloc();
    let mut env = with_rows(alloc)?;
    let both = "?u: a | @x null | @y null ";
    let after_y = "?u: a | @x null | @y null | @z null ";
    let turned = "?u: a | @y null | @x null ";
    assert!(rt; does(alloc, &mut env, insert_row(alloc, "u", "z", "@y"), after_y));
    assert!(rt; does(alloc, &mut env, delete_row(alloc, "u", "@z"), both));
    assert!(rt; does(alloc, &mut env, move_row(alloc, "u", "@y", "@y"), both));
    assert!(rt; does(alloc, &mut env, move_row(alloc, "u", "@y", "@x"), both));
    assert!(rt; does(alloc, &mut env, move_row(alloc, "u", "@y", ""), turned));
    Ok(())
}

#[test]
fn its_values_change_in_doubt(rt: HostRuntime) -> Result<(), Fail> {
    let alloc = rt.alloc();
    let mut env = with_rows(alloc)?;
    let set = "?u: a | @x null | @y 7 ";
    let computed = "?u: a | @x null | @y 8 ";
    let sorted = "?u: a | @y 8 | @x null ";
    assert!(rt; does(alloc, &mut env, set_value(alloc, "u", "@y", 7), set));
    assert!(rt; does(alloc, &mut env, formula(alloc, "u", "a + 1"), computed));
    assert!(rt; does(alloc, &mut env, sort(alloc, "u", "a"), sorted));
    Ok(())
}

#[test]
fn it_is_in_doubt_under_another_name_and_gone_without(rt: HostRuntime) -> Result<(), Fail> {
    let alloc = rt.alloc();
    let mut env = with_rows(alloc)?;
    let copied = "?v: a | @x null | @y null ";
    assert!(rt; does(alloc, &mut env, copy("u", "v"), copied));
    let renamed = "?w: a | @x null | @y null u: none";
    assert!(rt; does(alloc, &mut env, rename("u", "w"), renamed));
    assert!(rt; does(alloc, &mut env, drop("v"), "v: none"));
    Ok(())
}
