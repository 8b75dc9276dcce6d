//! Rows in the order of one column, and of two.
use crate::sort;
use crate::tests::{deleted, gives, inserted, named, prices, set, surplus, words};
use cell_errors::EvalFault;
use dataset_types::Table;
use sheet_commands::{SortName, SortNames};
use std::alloc::Global;
use std::process::Abort;
use std::test::*;
use value_types::{ArcOf, NoMemory, Value};

// The columns of these names, each downward or not.
fn keys(alloc: Global, listed: &[(&str, bool)]) -> Result<SortNames, NoMemory> {
    let mut by = SortNames::new(alloc)?;
    for (name, descending) in listed {
        let name = named(name)?;
        let descending = *descending;
        by.push(alloc, SortName { name, descending })?;
    }
    Ok(by)
}

fn sorted(
    alloc: Global,
    table: &ArcOf<Table>,
    listed: &[(&str, bool)],
) -> Result<ArcOf<Table>, EvalFault> {
    sort(alloc, table, &keys(alloc, listed)?)
}

#[test]
fn rows_are_sorted_by_named_columns(rt: HostRuntime) -> Result<(), Fail> {
    let alloc = rt.alloc();
    let sure = prices(&rt, alloc).expect(&rt, "memory");
    let open = surplus(&rt, alloc).expect(&rt, "memory");
    let cases = [
        (&sure, "n", "#2 2 ~null; #1 1 2.5000; "),
        (&sure, "price", "#1 1 2.5000; #2 2 ~null; loose "),
        (&open, "price", "#1 1 2.5000; ?#2 2 ~null; open "),
        (&open, "m", "NoColumn"),
    ];
    for (table, column, want) in cases {
        assert!(rt;
            gives(alloc, &sorted(alloc, table, &[(column, true)]), want),
            "{column}"
        );
    }
    Ok(())
}

#[test]
fn one_sure_row_with_a_marked_key_makes_the_order_uncertain(rt: HostRuntime) -> Result<(), Fail> {
    let alloc = rt.alloc();
    let both = prices(&rt, alloc).expect(&rt, "memory");
    let one = deleted(alloc, &both, "#1").expect(&rt, "memory");
    assert!(rt;
        gives(
            alloc,
            &sorted(alloc, &one, &[("price", false)]),
            "#2 2 ~null; loose "
        )
    );
    assert!(rt; gives(alloc, &sorted(alloc, &one, &[("n", false)]), "#2 2 ~null; "));
    assert!(rt;
        gives(
            alloc,
            &sorted(alloc, &one, &[("n", false), ("price", true)]),
            "#2 2 ~null; loose "
        )
    );
    Ok(())
}

fn no_rows(rt: &impl Abort, alloc: Global) -> Result<ArcOf<Table>, EvalFault> {
    deleted(alloc, &deleted(alloc, &prices(rt, alloc)?, "#1")?, "#2")
}

// One row more, after the one that is named.
fn with(
    alloc: Global,
    table: &ArcOf<Table>,
    after: &str,
    name: &str,
    n: i64,
    price: &Value,
) -> Result<ArcOf<Table>, EvalFault> {
    let table = inserted(alloc, table, name, after)?;
    let mut id = words(alloc, "@")?;
    id.push_text(alloc, name)?;
    let table = set(alloc, &table, id.as_text(), "n", &Value::Int(n))?;
    set(alloc, &table, id.as_text(), "price", price)
}

fn three(rt: &impl Abort, alloc: Global) -> Result<ArcOf<Table>, EvalFault> {
    let table = with(alloc, &no_rows(rt, alloc)?, "", "a", 2, &Value::Int(1))?;
    let table = with(alloc, &table, "@a", "b", 1, &Value::Int(3))?;
    with(alloc, &table, "@b", "c", 2, &Value::Int(5))
}

// Two numbers, and ties under both columns.
fn six(rt: &impl Abort, alloc: Global) -> Result<ArcOf<Table>, EvalFault> {
    let table = with(alloc, &three(rt, alloc)?, "@c", "d", 1, &Value::Int(3))?;
    let table = with(alloc, &table, "@d", "e", 2, &Value::Int(1))?;
    with(alloc, &table, "@e", "f", 1, &Value::Null)
}

#[test]
fn rows_are_sorted_by_two_columns_and_ties_keep_their_order(rt: HostRuntime) -> Result<(), Fail> {
    let alloc = rt.alloc();
    let table = six(&rt, alloc).expect(&rt, "memory");
    let cases = [
        (
            [("n", false), ("price", true)],
            "@b 1 3.0000; @d 1 3.0000; @f 1 null; @c 2 5.0000; @a 2 1.0000; @e 2 1.0000; ",
        ),
        (
            [("n", true), ("price", false)],
            "@a 2 1.0000; @e 2 1.0000; @c 2 5.0000; @f 1 null; @b 1 3.0000; @d 1 3.0000; ",
        ),
        (
            [("price", true), ("n", false)],
            "@c 2 5.0000; @b 1 3.0000; @d 1 3.0000; @a 2 1.0000; @e 2 1.0000; @f 1 null; ",
        ),
        (
            [("n", false), ("n", true)],
            "@b 1 3.0000; @d 1 3.0000; @f 1 null; @a 2 1.0000; @c 2 5.0000; @e 2 1.0000; ",
        ),
        ([("n", false), ("m", true)], "NoColumn"),
        ([("m", false), ("n", true)], "NoColumn"),
    ];
    for (listed, want) in cases {
        assert!(rt;
            gives(alloc, &sorted(alloc, &table, &listed), want),
            "{want}"
        );
    }
    Ok(())
}
