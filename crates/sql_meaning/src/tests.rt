//! SELECTs over small datasets. `p` has two prices, of which the second could not be read; `q` is open and has the first alone;
//! `l` has the ids 1 and 3, and `d` is the same in doubt. A result is shown as one line: rows, then flags.
//!
//! What other test modules call has no contract: tests look at what they get.
ghost use Rattle.std.specs.Prelude.{IfOk};
ghost use Rattle.dataset_types.specs.Tables.{Distinct, row_ids};

use crate::run_select;
use cell_errors::CellError;
use cell_model::{EnvReads, WorkFault};
use dataset_types::{
    Column, Columns, Env, Marked, MarkedValues, Picks, Row, Rows, Slot, Table, all_sure,
    law_of_numbers, names_distinct, rows_fit,
};
use sql_parse::parse_select;
use std::alloc::Global;
use std::process::Abort;
use std::test::*;
use value_types::{
    ArcOf, ColumnType, Name, NoMemory, RowId, Value, Words, id_text, literal_text, read_name,
};

pub fn named(text: &str) -> Result<Name, NoMemory> {
    read_name(text.as_bytes()).ok_or(NoMemory)
}

fn columns(alloc: Global, list: &[(&str, ColumnType)]) -> Result<Columns, NoMemory> {
    let mut columns = Columns::new(alloc)?;
    for (name, kind) in list {
        let name = named(name)?;
        columns.push(alloc, Column { name, kind: *kind })?;
    }
    Ok(columns)
}

pub fn plain(value: Value) -> Marked {
    Marked {
        value,
        marked: false,
    }
}

fn id_values(alloc: Global, id: i64) -> Result<MarkedValues, NoMemory> {
    let mut values = MarkedValues::new(alloc)?;
    values.push(alloc, plain(Value::Int(id)))?;
    Ok(values)
}

fn price_values(alloc: Global, id: i64, price: Marked) -> Result<MarkedValues, NoMemory> {
    let mut values = id_values(alloc, id)?;
    values.push(alloc, price)?;
    Ok(values)
}

pub fn one_row(alloc: Global, values: MarkedValues) -> Result<Rows, NoMemory>
    ensures { IfOk result (λ rows. Distinct (row_ids rows)) }
{
    let mut rows = Rows::new(alloc)?;
    let id = RowId::Rec(1);
    let sure = true;
    rows.push(alloc, Row { id, sure, values })?;
    law_of_numbers(&rows);
    Ok(rows)
}

fn two_rows(alloc: Global, first: MarkedValues, second: MarkedValues) -> Result<Rows, NoMemory>
    ensures { IfOk result (λ rows. Distinct (row_ids rows)) }
{
    let mut rows = Rows::new(alloc)?;
    let sure = true;
    let (id, values) = (RowId::Rec(1), first);
    rows.push(alloc, Row { id, sure, values })?;
    let (id, values) = (RowId::Rec(2), second);
    rows.push(alloc, Row { id, sure, values })?;
    law_of_numbers(&rows);
    Ok(rows)
}

pub fn table(
    rt: &impl Abort,
    alloc: Global,
    columns: Columns,
    rows: Rows,
    is_open: bool,
) -> Result<ArcOf<Table>, NoMemory>
    requires { Distinct (row_ids rows) }
{
    assert!(rt; names_distinct(columns.as_slice()));
    assert!(rt; rows_fit(columns.as_slice(), rows.as_slice()));
    assert!(rt; all_sure(rows.as_slice()));
    match Table::new(alloc, columns, rows, is_open, false) {
        Ok(table) => ArcOf::new(alloc, table),
        Err(_) => Err(NoMemory),
    }
}

pub fn add(
    alloc: Global,
    env: &mut Env,
    name: &str,
    table: ArcOf<Table>,
    doubt: bool,
) -> Result<(), NoMemory> {
    let table = Some(table);
    env.set(alloc, named(name)?, Slot { table, doubt })
}

pub fn datasets(rt: &impl Abort, alloc: Global) -> Result<Env, NoMemory> {
    let prices = [("id", ColumnType::Int), ("price", ColumnType::Fixed)];
    let ids = [("id", ColumnType::Int)];
    let unread = Marked {
        value: Value::Null,
        marked: true,
    };
    let read = price_values(alloc, 1, plain(Value::Fixed(25_000)))?;
    let two = two_rows(alloc, read, price_values(alloc, 2, unread)?)?;
    let one = one_row(alloc, price_values(alloc, 1, plain(Value::Fixed(25_000)))?)?;
    let others = two_rows(alloc, id_values(alloc, 1)?, id_values(alloc, 3)?)?;
    let p = table(rt, alloc, columns(alloc, &prices)?, two, false)?;
    let q = table(rt, alloc, columns(alloc, &prices)?, one, true)?;
    let l = table(rt, alloc, columns(alloc, &ids)?, others, false)?;
    let mut env = Env::new(alloc)?;
    add(alloc, &mut env, "p", p, false)?;
    add(alloc, &mut env, "q", q, false)?;
    add(alloc, &mut env, "d", l.copy(alloc)?, true)?;
    add(alloc, &mut env, "l", l, false)?;
    Ok(env)
}

fn push_row(alloc: Global, out: &mut Words, row: &Row) -> Result<(), NoMemory> {
    out.push_text(alloc, if row.sure { "" } else { "?" })?;
    id_text(alloc, &row.id, out)?;
    for marked in row.values.as_slice() {
        out.push_text(alloc, if marked.marked { " ~" } else { " " })?;
        literal_text(alloc, &marked.value, out)?;
    }
    out.push_text(alloc, "; ")
}

fn push_slot(alloc: Global, out: &mut Words, slot: &Slot) -> Result<(), NoMemory> {
    if let Some(table) = &slot.table {
        for row in table.get().rows().as_slice() {
            push_row(alloc, out, row)?;
        }
        out.push_text(alloc, if table.get().is_open() { "open " } else { "" })?;
        out.push_text(alloc, if table.get().is_loose() { "loose " } else { "" })?;
    }
    out.push_text(alloc, if slot.doubt { "doubtful " } else { "" })
}

fn error_name(error: CellError) -> &'static str {
    match error {
        CellError::NoDataset => "NoDataset",
        CellError::NoColumn => "NoColumn",
        CellError::NameTaken => "NameTaken",
        CellError::TypeFault => "TypeFault",
        CellError::ZeroDivisor => "ZeroDivisor",
        CellError::BadCast => "BadCast",
        CellError::TooLarge => "TooLarge",
        _ => "another error",
    }
}

fn line_of(alloc: Global, env: &Env, text: &str, picks: &Picks) -> Result<Words, NoMemory> {
    let mut out = Words::new(alloc)?;
    if text.len() >= 65_536 {
        out.push_text(alloc, "no query")?;
        return Ok(out);
    }
    let select = match parse_select(alloc, text) {
        Ok(select) => select,
        Err(_) => {
            out.push_text(alloc, "no query")?;
            return Ok(out);
        }
    };
    let mut reads = EnvReads::new(alloc, env)?;
    match run_select(alloc, &select, 1, picks, &mut reads) {
        Ok(slot) => push_slot(alloc, &mut out, &slot)?,
        Err(WorkFault::Error(error)) => out.push_text(alloc, error_name(error))?,
        Err(WorkFault::Ended(_)) => return Err(NoMemory),
    }
    Ok(out)
}

/// Whether the text gives this line in cell 1, under these picks.
pub fn gives_under(alloc: Global, env: &Env, text: &str, picks: &Picks, want: &str) -> bool {
    match line_of(alloc, env, text, picks) {
        Ok(line) => line.as_text() == want,
        Err(_) => false,
    }
}

/// Whether the text gives this line in a cell without picks.
pub fn gives(alloc: Global, env: &Env, text: &str, want: &str) -> bool {
    match Picks::new(alloc) {
        Ok(picks) => gives_under(alloc, env, text, &picks, want),
        Err(_) => false,
    }
}

#[test]
fn a_select_gives_rows_marks_and_flags(rt: HostRuntime) {
    let alloc = rt.alloc();
    let env = datasets(&rt, alloc).expect(&rt, "memory");
    let cases: [(&str, &str); 14] = [
        ("select * from p where price > 2", "#1 1 2.5000; open "),
        (
            "select * from p order by price limit 1",
            "?#2 2 ~null; open loose ",
        ),
        (
            "select l.id as id, q.price as price from l left join q on l.id = q.id",
            "(#1,#1) 1 2.5000; ?(#2,-) 3 null; open ",
        ),
        ("select count(*) as n from q", "[] ~1; "),
        (
            "select price, count(*) as n from p group by price",
            "?[null] null ~1; [2.5000] 2.5000 ~1; open ",
        ),
        ("select distinct 7 as a from p", "[7] 7; "),
        ("select id from q limit 5", "?#1 1; open "),
        (
            "select id from l union all select id from p order by id desc limit 2",
            "<#2 3; >#2 2; ",
        ),
        ("select id from d", "#1 1; #2 3; doubtful "),
        (
            "select l.id from l join d on l.id = d.id",
            "(#1,#1) 1; (#2,#2) 3; doubtful ",
        ),
        (
            "select none from none union all select 1 from p",
            "NoDataset",
        ),
        ("select none from p join none on true", "NoDataset"),
        (
            "select id / 0 as x from l union all select none from l",
            "NoColumn",
        ),
        ("select id / 0 as x from l", "ZeroDivisor"),
    ];
    for (text, want) in cases.iter() {
        assert!(rt; gives(alloc, &env, text, want));
    }
}

#[test]
fn thirty_two_columns_are_the_most(rt: HostRuntime) {
    let alloc = rt.alloc();
    let env = datasets(&rt, alloc).expect(&rt, "memory");
    let most =
        "select 1,1,1,1,1,1,1,1,1,1,1,1,1,1,1,1,1,1,1,1,1,1,1,1,1,1,1,1,1,1,1,1 from p limit 0";
    let more =
        "select 1,1,1,1,1,1,1,1,1,1,1,1,1,1,1,1,1,1,1,1,1,1,1,1,1,1,1,1,1,1,1,1,1 from p limit 0";
    assert!(rt; gives(alloc, &env, most, ""));
    assert!(rt; gives(alloc, &env, more, "TooLarge"));
}
