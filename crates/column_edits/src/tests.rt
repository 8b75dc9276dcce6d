//! The commands over two rows, the second of them unsure and with a price that could not be read. Each result is shown as one
//! line: columns, rows, then flags.
//!
//! What other test modules call has no contract: tests look at what they get.
ghost use Rattle.std.specs.Prelude.{◌≡◌, IfOk};
ghost use Rattle.dataset_types.specs.Tables.{Distinct, column_names, row_ids};

use crate::{delete_column, insert_column, keep_columns, move_column, rename_column};
use cell_errors::{CellError, EvalFault};
use dataset_types::{
    Column, Columns, Marked, MarkedValues, Row, Rows, Table, law_of_numbers, names_distinct,
    rows_fit,
};
use std::alloc::Global;
use std::process::Abort;
use std::test::*;
use value_types::{
    ArcOf, ColumnType, Name, Names, NoMemory, RowId, Value, Words, id_text, literal_text, read_name,
};

// Too much for a Fixed.
const LARGE: i64 = 1_000_000_000_000_000;

pub(crate) fn named(text: &str) -> Result<Name, NoMemory> {
    read_name(text.as_bytes()).ok_or(NoMemory)
}

pub(crate) fn columns(alloc: Global, listed: &[(&str, ColumnType)]) -> Result<Columns, NoMemory> {
    let mut columns = Columns::new(alloc)?;
    for (name, kind) in listed {
        let name = named(name)?;
        columns.push(alloc, Column { name, kind: *kind })?;
    }
    Ok(columns)
}

fn values(alloc: Global, n: i64, price: Marked, note: &str) -> Result<MarkedValues, NoMemory> {
    let mut text = Words::new(alloc)?;
    text.push_text(alloc, note)?;
    let mut values = MarkedValues::new(alloc)?;
    values.push(
        alloc,
        Marked {
            value: Value::Int(n),
            marked: false,
        },
    )?;
    values.push(alloc, price)?;
    values.push(
        alloc,
        Marked {
            value: Value::Text(text),
            marked: false,
        },
    )?;
    Ok(values)
}

fn rows(alloc: Global) -> Result<Rows, NoMemory>
    ensures { IfOk result (λ rows. Distinct (row_ids rows)) }
{
    let read = Marked {
        value: Value::Fixed(25_000),
        marked: false,
    };
    let unread = Marked {
        value: Value::Null,
        marked: true,
    };
    let first = values(alloc, 3, read, "x")?;
    let second = values(alloc, LARGE, unread, "y")?;
    let mut rows = Rows::new(alloc)?;
    rows.push(
        alloc,
        Row {
            id: RowId::Rec(1),
            sure: true,
            values: first,
        },
    )?;
    rows.push(
        alloc,
        Row {
            id: RowId::Rec(2),
            sure: false,
            values: second,
        },
    )?;
    law_of_numbers(&rows);
    Ok(rows)
}

pub(crate) fn shared(
    alloc: Global,
    made: Result<Table, dataset_types::TableFault>,
) -> Result<ArcOf<Table>, EvalFault> {
    match made {
        Ok(table) => Ok(ArcOf::new(alloc, table)?),
        Err(_) => Err(EvalFault::NoMemory),
    }
}

pub(crate) fn prices(rt: &impl Abort, alloc: Global) -> Result<ArcOf<Table>, EvalFault> {
    let listed = [
        ("n", ColumnType::Int),
        ("price", ColumnType::Fixed),
        ("note", ColumnType::Text),
    ];
    let columns = columns(alloc, &listed)?;
    let rows = rows(alloc)?;
    assert!(rt; names_distinct(columns.as_slice()));
    assert!(rt; rows_fit(columns.as_slice(), rows.as_slice()));
    shared(alloc, Table::new(alloc, columns, rows, true, false))
}

fn push_column(alloc: Global, out: &mut Words, column: &Column) -> Result<(), NoMemory> {
    out.push_text(alloc, column.name.as_text())?;
    out.push_text(
        alloc,
        match column.kind {
            ColumnType::Bool => ":bool ",
            ColumnType::Int => ":int ",
            ColumnType::Fixed => ":fixed ",
            ColumnType::Text => ":text ",
        },
    )
}

fn push_row(alloc: Global, out: &mut Words, row: &Row) -> Result<(), NoMemory> {
    out.push_text(alloc, if row.sure { "| " } else { "| ?" })?;
    id_text(alloc, &row.id, out)?;
    for marked in row.values.as_slice() {
        out.push_text(alloc, if marked.marked { " ~" } else { " " })?;
        literal_text(alloc, &marked.value, out)?;
    }
    out.push_text(alloc, " ")
}

fn push_table(alloc: Global, out: &mut Words, table: &Table) -> Result<(), NoMemory> {
    for column in table.columns().as_slice() {
        push_column(alloc, out, column)?;
    }
    for row in table.rows().as_slice() {
        push_row(alloc, out, row)?;
    }
    out.push_text(alloc, if table.is_open() { "open" } else { "closed" })?;
    out.push_text(alloc, if table.is_loose() { " loose" } else { "" })
}

fn name_of(error: CellError) -> &'static str {
    match error {
        CellError::NoColumn => "NoColumn",
        CellError::TypeFault => "TypeFault",
        CellError::Overflow => "Overflow",
        CellError::ZeroDivisor => "ZeroDivisor",
        CellError::TooLarge => "TooLarge",
        CellError::NameTaken => "NameTaken",
        _ => "another error",
    }
}

fn line_of(alloc: Global, answer: &Result<ArcOf<Table>, EvalFault>) -> Result<Words, NoMemory> {
    let mut out = Words::new(alloc)?;
    match answer {
        Ok(table) => push_table(alloc, &mut out, table.get())?,
        Err(EvalFault::Error(error)) => out.push_text(alloc, name_of(*error))?,
        Err(EvalFault::NoMemory) => return Err(NoMemory),
    }
    Ok(out)
}

pub(crate) fn gives(alloc: Global, answer: &Result<ArcOf<Table>, EvalFault>, want: &str) -> bool {
    match line_of(alloc, answer) {
        Ok(line) => line.as_text() == want,
        Err(_) => false,
    }
}

fn inserted(
    rt: &impl Abort,
    alloc: Global,
    name: &str,
    at: u32,
) -> Result<ArcOf<Table>, EvalFault> {
    insert_column(
        alloc,
        prices(rt, alloc)?.get(),
        &named(name)?,
        ColumnType::Bool,
        at,
    )
}

#[test]
fn a_column_is_put_in_before_a_place(rt: HostRuntime) {
    let alloc = rt.alloc();
    for (name, at, want) in [
        (
            "z",
            1,
            "z:bool n:int price:fixed note:text | #1 null 3 2.5000 \"x\" | ?#2 null 1000000000000000 ~null \"y\" open",
        ),
        (
            "z",
            4,
            "n:int price:fixed note:text z:bool | #1 3 2.5000 \"x\" null | ?#2 1000000000000000 ~null \"y\" null open",
        ),
        ("z", 0, "NoColumn"),
        ("z", 5, "NoColumn"),
        ("note", 1, "NameTaken"),
        ("note", 0, "NoColumn"),
        ("note", 5, "NoColumn"),
        ("note", 4, "NameTaken"),
    ] {
        assert!(rt;
            gives(alloc, &inserted(&rt, alloc, name, at), want),
            "{name} {at}"
        );
    }
}

fn with_32_columns(rt: &impl Abort, alloc: Global) -> Result<ArcOf<Table>, EvalFault> {
    let mut table = prices(rt, alloc)?;
    for letter in b'a'..=b'z' {
        if letter != b'n' {
            let name = read_name(&[letter]).ok_or(NoMemory)?;
            table = insert_column(alloc, table.get(), &name, ColumnType::Bool, 1)?;
        }
    }
    for digit in b'0'..=b'3' {
        let name = read_name(&[b'a', digit]).ok_or(NoMemory)?;
        table = insert_column(alloc, table.get(), &name, ColumnType::Bool, 1)?;
    }
    Ok(table)
}

fn one_more(rt: &impl Abort, alloc: Global, name: &str) -> Result<ArcOf<Table>, EvalFault> {
    let table = with_32_columns(rt, alloc)?;
    assert!(rt; table.get().columns().len() == 32);
    insert_column(alloc, table.get(), &named(name)?, ColumnType::Text, 33)
}

#[test]
fn a_33rd_column_is_too_much(rt: HostRuntime) {
    let alloc = rt.alloc();
    assert!(rt; gives(alloc, &one_more(&rt, alloc, "more"), "TooLarge"));
    assert!(rt; gives(alloc, &one_more(&rt, alloc, "q"), "NameTaken"));
}

fn deleted(rt: &impl Abort, alloc: Global, name: &str) -> Result<ArcOf<Table>, EvalFault> {
    delete_column(alloc, prices(rt, alloc)?.get(), &named(name)?)
}

fn all_deleted(rt: &impl Abort, alloc: Global) -> Result<ArcOf<Table>, EvalFault> {
    let two = deleted(rt, alloc, "n")?;
    let one = delete_column(alloc, two.get(), &named("note")?)?;
    delete_column(alloc, one.get(), &named("price")?)
}

fn renamed(
    rt: &impl Abort,
    alloc: Global,
    name: &str,
    to: &str,
) -> Result<ArcOf<Table>, EvalFault> {
    rename_column(alloc, &prices(rt, alloc)?, &named(name)?, &named(to)?)
}

#[test]
fn columns_go_and_get_other_names(rt: HostRuntime) {
    let alloc = rt.alloc();
    for (name, want) in [
        (
            "n",
            "price:fixed note:text | #1 2.5000 \"x\" | ?#2 ~null \"y\" open",
        ),
        (
            "note",
            "n:int price:fixed | #1 3 2.5000 | ?#2 1000000000000000 ~null open",
        ),
        ("z", "NoColumn"),
    ] {
        assert!(rt; gives(alloc, &deleted(&rt, alloc, name), want), "{name}");
    }
    assert!(rt; gives(alloc, &all_deleted(&rt, alloc), "| #1 | ?#2 open"));
    for (name, to, want) in [
        (
            "price",
            "cost",
            "n:int cost:fixed note:text | #1 3 2.5000 \"x\" | ?#2 1000000000000000 ~null \"y\" open",
        ),
        (
            "n",
            "n",
            "n:int price:fixed note:text | #1 3 2.5000 \"x\" | ?#2 1000000000000000 ~null \"y\" open",
        ),
        (
            "n",
            "z",
            "z:int price:fixed note:text | #1 3 2.5000 \"x\" | ?#2 1000000000000000 ~null \"y\" open",
        ),
        (
            "note",
            "z",
            "n:int price:fixed z:text | #1 3 2.5000 \"x\" | ?#2 1000000000000000 ~null \"y\" open",
        ),
        ("n", "note", "NameTaken"),
        ("z", "note", "NoColumn"),
    ] {
        assert!(rt;
            gives(alloc, &renamed(&rt, alloc, name, to), want),
            "{name} {to}"
        );
    }
}

fn moved(rt: &impl Abort, alloc: Global, name: &str, at: u32) -> Result<ArcOf<Table>, EvalFault> {
    move_column(alloc, &prices(rt, alloc)?, &named(name)?, at)
}

fn names_of(alloc: Global, columns: &[Column]) -> Result<Names, NoMemory>
    ensures { IfOk result (λ names. names ≡ column_names columns.now) }
{
    let mut names = Names::new(alloc)?;
    for column in columns {
        names.push(alloc, column.name.copy())?;
    }
    Ok(names)
}

fn kept(
    rt: &impl Abort,
    alloc: Global,
    first: &str,
    second: &str,
) -> Result<ArcOf<Table>, EvalFault> {
    let listed = [(first, ColumnType::Int), (second, ColumnType::Int)];
    let columns = columns(alloc, &listed)?;
    assert!(rt; names_distinct(columns.as_slice()));
    let names = names_of(alloc, columns.as_slice())?;
    keep_columns(alloc, &prices(rt, alloc)?, &names)
}

fn all_kept(rt: &impl Abort, alloc: Global) -> Result<ArcOf<Table>, EvalFault> {
    let table = prices(rt, alloc)?;
    assert!(rt; names_distinct(table.get().columns().as_slice()));
    let names = names_of(alloc, table.get().columns().as_slice())?;
    keep_columns(alloc, &table, &names)
}

#[test]
fn columns_are_moved_and_chosen(rt: HostRuntime) {
    let alloc = rt.alloc();
    for (name, at, want) in [
        (
            "n",
            3,
            "price:fixed note:text n:int | #1 2.5000 \"x\" 3 | ?#2 ~null \"y\" 1000000000000000 open",
        ),
        (
            "note",
            1,
            "note:text n:int price:fixed | #1 \"x\" 3 2.5000 | ?#2 \"y\" 1000000000000000 ~null open",
        ),
        (
            "price",
            2,
            "n:int price:fixed note:text | #1 3 2.5000 \"x\" | ?#2 1000000000000000 ~null \"y\" open",
        ),
        (
            "n",
            1,
            "n:int price:fixed note:text | #1 3 2.5000 \"x\" | ?#2 1000000000000000 ~null \"y\" open",
        ),
        (
            "note",
            3,
            "n:int price:fixed note:text | #1 3 2.5000 \"x\" | ?#2 1000000000000000 ~null \"y\" open",
        ),
        ("n", 0, "NoColumn"),
        ("n", 4, "NoColumn"),
        ("z", 1, "NoColumn"),
        ("z", 0, "NoColumn"),
    ] {
        assert!(rt;
            gives(alloc, &moved(&rt, alloc, name, at), want),
            "{name} {at}"
        );
    }
    let two = "note:text price:fixed | #1 \"x\" 2.5000 | ?#2 \"y\" ~null open";
    assert!(rt; gives(alloc, &kept(&rt, alloc, "note", "price"), two));
    assert!(rt;
        gives(
            alloc,
            &all_kept(&rt, alloc),
            "n:int price:fixed note:text | #1 3 2.5000 \"x\" | ?#2 1000000000000000 ~null \"y\" open"
        )
    );
    assert!(rt; gives(alloc, &kept(&rt, alloc, "note", "z"), "NoColumn"));
    assert!(rt; gives(alloc, &kept(&rt, alloc, "z", "note"), "NoColumn"));
}
