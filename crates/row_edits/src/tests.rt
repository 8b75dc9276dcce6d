//! Commands on a dataset of two rows, of whose second the price couldn't be read. A result is shown as one line: rows, then flags.
//!
//! What other test modules call has no contract: tests look at what they get.
ghost use Rattle.std.specs.Prelude.{IfOk};
ghost use Rattle.dataset_types.specs.Tables.{Distinct, row_ids};

use crate::{delete_row, insert_row, move_row, set_value};
use cell_errors::{CellError, EvalFault};
use dataset_types::{
    Column, Columns, Marked, MarkedValues, Row, Rows, Table, all_sure, law_of_numbers,
    names_distinct, rows_fit,
};
use std::alloc::Global;
use std::process::Abort;
use std::test::*;
use value_types::{
    ArcOf, ColumnType, Name, NoMemory, RowId, Value, Words, id_text, literal_text, read_name,
};

pub(crate) fn named(text: &str) -> Result<Name, NoMemory> {
    read_name(text.as_bytes()).ok_or(NoMemory)
}

pub(crate) fn words(alloc: Global, text: &str) -> Result<Words, NoMemory> {
    let mut all = Words::new(alloc)?;
    all.push_text(alloc, text)?;
    Ok(all)
}

// The row that is named, or none for no text.
fn place(alloc: Global, text: &str) -> Result<Option<Words>, NoMemory> {
    if text.is_empty() {
        return Ok(None);
    }
    Ok(Some(words(alloc, text)?))
}

pub(crate) fn columns(alloc: Global) -> Result<Columns, NoMemory> {
    let mut columns = Columns::new(alloc)?;
    for (name, kind) in [("n", ColumnType::Int), ("price", ColumnType::Fixed)] {
        let name = named(name)?;
        columns.push(alloc, Column { name, kind })?;
    }
    Ok(columns)
}

pub(crate) fn values(
    alloc: Global,
    n: i64,
    price: Value,
    marked: bool,
) -> Result<MarkedValues, NoMemory> {
    let mut values = MarkedValues::new(alloc)?;
    let first = Marked {
        value: Value::Int(n),
        marked: false,
    };
    values.push(alloc, first)?;
    values.push(
        alloc,
        Marked {
            value: price,
            marked,
        },
    )?;
    Ok(values)
}

fn rows(alloc: Global, sure: bool) -> Result<Rows, NoMemory>
    ensures { IfOk result (λ rows. Distinct (row_ids rows)) }
{
    let mut rows = Rows::new(alloc)?;
    let read = values(alloc, 1, Value::Fixed(25_000), false)?;
    rows.push(
        alloc,
        Row {
            id: RowId::Rec(1),
            sure: true,
            values: read,
        },
    )?;
    let unread = values(alloc, 2, Value::Null, true)?;
    rows.push(
        alloc,
        Row {
            id: RowId::Rec(2),
            sure,
            values: unread,
        },
    )?;
    law_of_numbers(&rows);
    Ok(rows)
}

pub(crate) fn made(
    alloc: Global,
    answer: Result<Table, dataset_types::TableFault>,
) -> Result<ArcOf<Table>, EvalFault> {
    match answer {
        Ok(table) => Ok(ArcOf::new(alloc, table)?),
        Err(_) => Err(EvalFault::NoMemory),
    }
}

// Both rows are sure.
pub(crate) fn prices(rt: &impl Abort, alloc: Global) -> Result<ArcOf<Table>, EvalFault> {
    let columns = columns(alloc)?;
    let rows = rows(alloc, true)?;
    assert!(rt; names_distinct(columns.as_slice()));
    assert!(rt; rows_fit(columns.as_slice(), rows.as_slice()));
    assert!(rt; all_sure(rows.as_slice()));
    made(alloc, Table::new(alloc, columns, rows, false, false))
}

// The second row is unsure.
pub(crate) fn surplus(rt: &impl Abort, alloc: Global) -> Result<ArcOf<Table>, EvalFault> {
    let columns = columns(alloc)?;
    let rows = rows(alloc, false)?;
    assert!(rt; names_distinct(columns.as_slice()));
    assert!(rt; rows_fit(columns.as_slice(), rows.as_slice()));
    made(alloc, Table::new(alloc, columns, rows, true, false))
}

fn push_row(alloc: Global, out: &mut Words, row: &Row) -> Result<(), NoMemory> {
    out.push_text(alloc, if row.sure { "" } else { "?" })?;
    id_text(alloc, &row.id, out)?;
    for marked in row.values.as_slice() {
        out.push_text(alloc, if marked.marked { " ~" } else { " " })?;
        literal_text(alloc, &marked.value, out)?;
    }
    out.push_text(alloc, "; ")
}

fn push_table(alloc: Global, out: &mut Words, table: &Table) -> Result<(), NoMemory> {
    for row in table.rows().as_slice() {
        push_row(alloc, out, row)?;
    }
    if table.is_open() {
        out.push_text(alloc, "open ")?;
    }
    if table.is_loose() {
        out.push_text(alloc, "loose ")?;
    }
    Ok(())
}

fn name_of(fault: EvalFault) -> &'static str {
    match fault {
        EvalFault::Error(CellError::NoColumn) => "NoColumn",
        EvalFault::Error(CellError::NoRow) => "NoRow",
        EvalFault::Error(CellError::RowTaken) => "RowTaken",
        EvalFault::Error(CellError::TypeFault) => "TypeFault",
        EvalFault::Error(CellError::Overflow) => "Overflow",
        EvalFault::Error(CellError::TooLarge) => "TooLarge",
        _ => "another fault",
    }
}

fn line_of(alloc: Global, answer: &Result<ArcOf<Table>, EvalFault>) -> Result<Words, NoMemory> {
    let mut out = Words::new(alloc)?;
    match answer {
        Ok(table) => push_table(alloc, &mut out, table.get())?,
        Err(fault) => out.push_text(alloc, name_of(*fault))?,
    }
    Ok(out)
}

pub(crate) fn gives(alloc: Global, answer: &Result<ArcOf<Table>, EvalFault>, want: &str) -> bool {
    match line_of(alloc, answer) {
        Ok(line) => line.as_text() == want,
        Err(_) => false,
    }
}

pub(crate) fn inserted(
    alloc: Global,
    table: &ArcOf<Table>,
    row: &str,
    after: &str,
) -> Result<ArcOf<Table>, EvalFault> {
    insert_row(alloc, table.get(), &named(row)?, &place(alloc, after)?)
}

#[test]
fn a_new_row_comes_first_or_after_a_row(rt: HostRuntime) -> Result<(), Fail> {
    let alloc = rt.alloc();
    let sure = prices(&rt, alloc).expect(&rt, "memory");
    let with_z = inserted(alloc, &sure, "z", "#1").expect(&rt, "memory");
    let open = surplus(&rt, alloc).expect(&rt, "memory");
    let cases = [
        (&sure, "z", "", "@z null null; #1 1 2.5000; #2 2 ~null; "),
        (&sure, "z", "#1", "#1 1 2.5000; @z null null; #2 2 ~null; "),
        (&sure, "z", "#2", "#1 1 2.5000; #2 2 ~null; @z null null; "),
        (&sure, "z", "#3", "NoRow"),
        (&sure, "z", "1", "NoRow"),
        (&sure, "z", "@z", "NoRow"),
        (
            &with_z,
            "y",
            "@z",
            "#1 1 2.5000; @z null null; @y null null; #2 2 ~null; ",
        ),
        (&with_z, "z", "", "RowTaken"),
        (&with_z, "z", "@z", "RowTaken"),
        (&with_z, "z", "@y", "NoRow"),
        (
            &open,
            "z",
            "#1",
            "#1 1 2.5000; @z null null; ?#2 2 ~null; open ",
        ),
        (
            &open,
            "z",
            "#2",
            "#1 1 2.5000; ?#2 2 ~null; @z null null; open loose ",
        ),
    ];
    for (table, row, after, want) in cases {
        assert!(rt;
            gives(alloc, &inserted(alloc, table, row, after), want),
            "{row} after {after}"
        );
    }
    Ok(())
}

pub(crate) fn deleted(
    alloc: Global,
    table: &ArcOf<Table>,
    row: &str,
) -> Result<ArcOf<Table>, EvalFault> {
    delete_row(alloc, table.get(), &words(alloc, row)?)
}

pub(crate) fn moved(
    alloc: Global,
    table: &ArcOf<Table>,
    row: &str,
    after: &str,
) -> Result<ArcOf<Table>, EvalFault> {
    move_row(alloc, table, &words(alloc, row)?, &place(alloc, after)?)
}

#[test]
fn a_row_is_moved(rt: HostRuntime) -> Result<(), Fail> {
    let alloc = rt.alloc();
    let sure = prices(&rt, alloc).expect(&rt, "memory");
    let open = surplus(&rt, alloc).expect(&rt, "memory");
    let loose = moved(alloc, &open, "#1", "#2").expect(&rt, "memory");
    let cases = [
        (&sure, "#2", "", "#2 2 ~null; #1 1 2.5000; "),
        (&sure, "#1", "#2", "#2 2 ~null; #1 1 2.5000; "),
        (&sure, "#1", "#1", "#1 1 2.5000; #2 2 ~null; "),
        (&sure, "#1", "", "#1 1 2.5000; #2 2 ~null; "),
        (&sure, "#2", "#1", "#1 1 2.5000; #2 2 ~null; "),
        (&sure, "#2", "#2", "#1 1 2.5000; #2 2 ~null; "),
        (&sure, "#3", "", "NoRow"),
        (&sure, "#3", "#2", "NoRow"),
        (&sure, "#3", "#3", "NoRow"),
        (&sure, "#1", "#3", "NoRow"),
        (&open, "#2", "#1", "#1 1 2.5000; ?#2 2 ~null; open "),
        (&open, "#2", "#2", "#1 1 2.5000; ?#2 2 ~null; open "),
        (&loose, "#1", "", "#1 1 2.5000; ?#2 2 ~null; open loose "),
    ];
    for (table, row, after, want) in cases {
        assert!(rt;
            gives(alloc, &moved(alloc, table, row, after), want),
            "{row} after {after}"
        );
    }
    assert!(rt; gives(alloc, &Ok(loose), "?#2 2 ~null; #1 1 2.5000; open loose "));
    Ok(())
}

// The unsure row comes first, and a sure one after it; their order is certain.
fn unsure_first(rt: &impl Abort, alloc: Global) -> Result<ArcOf<Table>, EvalFault> {
    moved(alloc, &surplus(rt, alloc)?, "#2", "")
}

#[test]
fn a_row_that_already_follows_an_unsure_one_is_loose_once_it_is_put_there(
    rt: HostRuntime,
) -> Result<(), Fail> {
    let alloc = rt.alloc();
    let table = unsure_first(&rt, alloc).expect(&rt, "memory");
    let loose = moved(alloc, &table, "#1", "#2").expect(&rt, "memory");
    let cases = [
        (&table, "#2", "", "?#2 2 ~null; #1 1 2.5000; open "),
        (&table, "#1", "#1", "?#2 2 ~null; #1 1 2.5000; open "),
        (&table, "#1", "#2", "?#2 2 ~null; #1 1 2.5000; open loose "),
        (&loose, "#1", "#2", "?#2 2 ~null; #1 1 2.5000; open loose "),
    ];
    for (table, row, after, want) in cases {
        assert!(rt;
            gives(alloc, &moved(alloc, table, row, after), want),
            "{row} after {after}"
        );
    }
    Ok(())
}

#[test]
fn a_row_is_taken_out(rt: HostRuntime) -> Result<(), Fail> {
    let alloc = rt.alloc();
    let sure = prices(&rt, alloc).expect(&rt, "memory");
    let open = surplus(&rt, alloc).expect(&rt, "memory");
    assert!(rt; gives(alloc, &deleted(alloc, &sure, "#1"), "#2 2 ~null; "));
    assert!(rt; gives(alloc, &deleted(alloc, &sure, "#2"), "#1 1 2.5000; "));
    assert!(rt; gives(alloc, &deleted(alloc, &open, "#2"), "#1 1 2.5000; open "));
    assert!(rt; gives(alloc, &deleted(alloc, &sure, "#3"), "NoRow"));
    Ok(())
}

pub(crate) fn set(
    alloc: Global,
    table: &ArcOf<Table>,
    row: &str,
    column: &str,
    value: &Value,
) -> Result<ArcOf<Table>, EvalFault> {
    set_value(alloc, table, &words(alloc, row)?, &named(column)?, value)
}

#[test]
fn a_value_is_set_without_a_mark(rt: HostRuntime) -> Result<(), Fail> {
    let alloc = rt.alloc();
    let table = prices(&rt, alloc).expect(&rt, "memory");
    let three = Value::Int(3);
    let text = Value::Text(words(alloc, "3")?);
    let cases = [
        ("#2", "price", &three, "#1 1 2.5000; #2 2 3.0000; "),
        ("#2", "price", &Value::Null, "#1 1 2.5000; #2 2 null; "),
        (
            "#2",
            "price",
            &Value::Int(922_337_203_685_477),
            "#1 1 2.5000; #2 2 922337203685477.0000; ",
        ),
        ("#2", "price", &Value::Int(922_337_203_685_478), "Overflow"),
        (
            "#2",
            "price",
            &Value::Int(-922_337_203_685_477),
            "#1 1 2.5000; #2 2 -922337203685477.0000; ",
        ),
        ("#2", "price", &Value::Int(-922_337_203_685_478), "Overflow"),
        ("#3", "price", &Value::Int(i64::MAX), "NoRow"),
        ("#2", "m", &Value::Int(i64::MAX), "NoColumn"),
        ("#1", "n", &three, "#1 3 2.5000; #2 2 ~null; "),
        ("#1", "n", &Value::Int(1), "#1 1 2.5000; #2 2 ~null; "),
        ("#1", "price", &three, "#1 1 3.0000; #2 2 ~null; "),
        ("#2", "n", &three, "#1 1 2.5000; #2 3 ~null; "),
        ("#1", "n", &text, "TypeFault"),
        ("#3", "n", &text, "NoRow"),
        ("#3", "m", &text, "NoColumn"),
        ("#1", "m", &text, "NoColumn"),
    ];
    for (row, column, value, want) in cases {
        assert!(rt;
            gives(alloc, &set(alloc, &table, row, column, value), want),
            "{row} {column}"
        );
    }
    Ok(())
}
