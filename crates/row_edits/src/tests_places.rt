//! Commands beside a row under an id of each kind: first, after that row, after none, and the row itself.
use crate::tests::{columns, deleted, gives, inserted, made, moved, set, values};
use crate::tests_ids::{alone, first, inserted_id, key, one_row, pair, second};
use cell_errors::EvalFault;
use dataset_types::{Row, Rows, Table, all_sure, names_distinct, rows_fit};
use std::alloc::Global;
use std::process::Abort;
use std::test::*;
use value_types::{ArcOf, NoMemory, RowId, Value, Words};

#[derive(Clone, Copy)]
enum Kind {
    Loaded,
    Inserted,
    Emitted,
    Joined,
    Alone,
    First,
    Second,
    Grouped,
}

// Each kind of id, with the text of one.
fn kinds() -> [(Kind, &'static str); 8] {
    [
        (Kind::Loaded, "#1"),
        (Kind::Inserted, "@new"),
        (Kind::Emitted, "+20"),
        (Kind::Joined, "(#1,[\"k\",-2,null])"),
        (Kind::Alone, "(#12,-)"),
        (Kind::First, "<(#1,[\"k\",-2,null])"),
        (Kind::Second, ">+3"),
        (Kind::Grouped, "[\"k\",-2,null]"),
    ]
}

fn id_of(alloc: Global, kind: Kind) -> Result<RowId, NoMemory> {
    match kind {
        Kind::Loaded => Ok(RowId::Rec(1)),
        Kind::Inserted => inserted_id(),
        Kind::Emitted => Ok(RowId::Emit(20)),
        Kind::Joined => pair(alloc),
        Kind::Alone => alone(alloc),
        Kind::First => first(alloc),
        Kind::Second => second(alloc),
        Kind::Grouped => key(alloc),
    }
}

fn row_under(alloc: Global, kind: Kind, sure: bool) -> Result<Row, NoMemory> {
    Ok(Row {
        id: id_of(alloc, kind)?,
        sure,
        values: values(alloc, 1, Value::Null, false)?,
    })
}

// One row, which is sure.
fn sure_under(rt: &impl Abort, alloc: Global, kind: Kind) -> Result<ArcOf<Table>, EvalFault> {
    let columns = columns(alloc)?;
    let rows = one_row(alloc, row_under(alloc, kind, true)?)?;
    assert!(rt; names_distinct(columns.as_slice()));
    assert!(rt; rows_fit(columns.as_slice(), rows.as_slice()));
    assert!(rt; all_sure(rows.as_slice()));
    made(alloc, Table::new(alloc, columns, rows, false, false))
}

// One row, which is unsure.
fn unsure_under(rt: &impl Abort, alloc: Global, kind: Kind) -> Result<ArcOf<Table>, EvalFault> {
    let columns = columns(alloc)?;
    let rows = one_row(alloc, row_under(alloc, kind, false)?)?;
    assert!(rt; names_distinct(columns.as_slice()));
    assert!(rt; rows_fit(columns.as_slice(), rows.as_slice()));
    made(alloc, Table::new(alloc, columns, rows, true, false))
}

// A line with a text in the place of each `*`.
fn line_with(alloc: Global, line: &str, text: &str) -> Result<Words, NoMemory> {
    let mut all = Words::new(alloc)?;
    for c in line.chars() {
        if c == '*' {
            all.push_text(alloc, text)?;
        } else {
            all.push_char(alloc, c)?;
        }
    }
    Ok(all)
}

fn gives_with(
    alloc: Global,
    answer: &Result<ArcOf<Table>, EvalFault>,
    line: &str,
    text: &str,
) -> bool {
    match line_with(alloc, line, text) {
        Ok(want) => gives(alloc, answer, want.as_text()),
        Err(_) => false,
    }
}

#[test]
fn a_row_is_inserted_beside_each_kind(rt: HostRuntime) -> Result<(), Fail> {
    let alloc = rt.alloc();
    for (kind, text) in kinds() {
        let sure = sure_under(&rt, alloc, kind).expect(&rt, "memory");
        let unsure = unsure_under(&rt, alloc, kind).expect(&rt, "memory");
        let cases = [
            (&sure, "", "@z null null; * 1 null; "),
            (&sure, text, "* 1 null; @z null null; "),
            (&sure, "#99", "NoRow"),
            (&sure, "@z", "NoRow"),
            (&unsure, "", "@z null null; ?* 1 null; open "),
            (&unsure, text, "?* 1 null; @z null null; open loose "),
        ];
        for (table, after, line) in cases {
            let answer = inserted(alloc, table, "z", after);
            assert!(rt; gives_with(alloc, &answer, line, text), "{line} {text}");
        }
    }
    Ok(())
}

#[test]
fn a_row_is_moved_beside_each_kind(rt: HostRuntime) -> Result<(), Fail> {
    let alloc = rt.alloc();
    for (kind, text) in kinds() {
        let one = sure_under(&rt, alloc, kind).expect(&rt, "memory");
        let sure = inserted(alloc, &one, "z", "").expect(&rt, "memory");
        let cases = [
            ("@z", text, "* 1 null; @z null null; "),
            (text, "", "* 1 null; @z null null; "),
            (text, "@z", "@z null null; * 1 null; "),
            (text, text, "@z null null; * 1 null; "),
            ("@z", "@z", "@z null null; * 1 null; "),
            (text, "#99", "NoRow"),
            ("#99", text, "NoRow"),
            ("#99", "", "NoRow"),
        ];
        for (row, after, line) in cases {
            let answer = moved(alloc, &sure, row, after);
            assert!(rt;
                gives_with(alloc, &answer, line, text),
                "{row} after {after}"
            );
        }
    }
    Ok(())
}

#[test]
fn a_row_is_moved_beside_an_unsure_row_of_each_kind(rt: HostRuntime) -> Result<(), Fail> {
    let alloc = rt.alloc();
    for (kind, text) in kinds() {
        let one = unsure_under(&rt, alloc, kind).expect(&rt, "memory");
        let unsure = inserted(alloc, &one, "z", "").expect(&rt, "memory");
        let cases = [
            ("@z", text, "?* 1 null; @z null null; open loose "),
            ("@z", "", "@z null null; ?* 1 null; open "),
            (text, "", "?* 1 null; @z null null; open "),
            (text, "@z", "@z null null; ?* 1 null; open "),
            (text, text, "@z null null; ?* 1 null; open "),
        ];
        for (row, after, line) in cases {
            let answer = moved(alloc, &unsure, row, after);
            assert!(rt;
                gives_with(alloc, &answer, line, text),
                "{row} after {after}"
            );
        }
    }
    Ok(())
}

#[test]
fn a_row_of_each_kind_is_changed_and_deleted(rt: HostRuntime) -> Result<(), Fail> {
    let alloc = rt.alloc();
    for (kind, text) in kinds() {
        let sure = sure_under(&rt, alloc, kind).expect(&rt, "memory");
        let unsure = unsure_under(&rt, alloc, kind).expect(&rt, "memory");
        let two = Value::Int(2);
        assert!(rt;
            gives_with(
                alloc,
                &set(alloc, &sure, text, "price", &two),
                "* 1 2.0000; ",
                text
            )
        );
        assert!(rt;
            gives_with(
                alloc,
                &set(alloc, &unsure, text, "n", &two),
                "?* 2 null; open ",
                text
            )
        );
        assert!(rt; gives(alloc, &set(alloc, &sure, "#99", "n", &two), "NoRow"));
        assert!(rt; gives(alloc, &deleted(alloc, &sure, text), ""));
        assert!(rt; gives(alloc, &deleted(alloc, &unsure, text), "open "));
        assert!(rt; gives(alloc, &deleted(alloc, &sure, "#99"), "NoRow"));
    }
    Ok(())
}
