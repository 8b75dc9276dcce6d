//! Tests of the texts, against the documented format.
//!
//! What other test modules call has no contract: tests look at what they get.
ghost use Rattle.std.specs.Prelude.{◌≡◌, IfOk};
ghost use Rattle.dataset_types.specs.Tables.{Distinct, row_ids};

use crate::write_block;
use cell_errors::CellError;
use cell_model::{Cell, CellKind, CellResult, CellStatus, Cells, Line, Results, Settled};
use dataset_types::{
    Column, Columns, Env, Marked, MarkedValues, Picks, Row, Rows, Slot, Table, all_sure,
    names_distinct, rows_fit,
};
use outside_io::{MemorySink, Numbers, WriteFault};
use std::alloc::Global;
use std::process::Abort;
use std::test::Fail;
use value_types::{ArcOf, ColumnType, ListOf, Name, NoMemory, RowId, Value, Words, read_name};

// A value of a row, and whether it is marked.
#[derive(Clone, Copy)]
enum Field {
    Null(bool),
    Int(i64, bool),
    Text(&'static str),
}

pub fn name_of(text: &str) -> Result<Name, NoMemory> {
    read_name(text.as_bytes()).ok_or(NoMemory)
}

fn words_of(alloc: Global, text: &str) -> Result<Words, NoMemory> {
    let mut words = Words::new(alloc)?;
    words.push_text(alloc, text)?;
    Ok(words)
}

fn marked_of(alloc: Global, field: Field) -> Result<Marked, NoMemory> {
    let (value, marked) = match field {
        Field::Null(marked) => (Value::Null, marked),
        Field::Int(n, marked) => (Value::Int(n), marked),
        Field::Text(text) => (Value::Text(words_of(alloc, text)?), false),
    };
    Ok(Marked { value, marked })
}

fn values_of(alloc: Global, fields: &[Field]) -> Result<MarkedValues, NoMemory> {
    let mut values = ListOf::new(alloc)?;
    for field in fields {
        values.push(alloc, marked_of(alloc, *field)?)?;
    }
    Ok(values)
}

// Rows that are numbered from 1, each sure or not.
#[tactic(auto, using(dataset_types::proofs::TableLemmas::numbered_push, dataset_types::proofs::TableLemmas::distinct_numbered))]
fn rows_of(alloc: Global, list: &[(bool, &[Field])]) -> Result<Rows, NoMemory>
    ensures { IfOk result (λ rows. Distinct (row_ids rows)) }
{
    let mut rows = ListOf::new(alloc)?;
    let mut number: u32 = 0;
    for (sure, fields) in list {
        if number == u32::MAX {
            return Err(NoMemory);
        }
        number += 1;
        let values = values_of(alloc, fields)?;
        let id = RowId::Rec(number);
        rows.push(
            alloc,
            Row {
                id,
                sure: *sure,
                values,
            },
        )?;
    }
    Ok(rows)
}

fn columns_of(alloc: Global, list: &[(&str, ColumnType)]) -> Result<Columns, NoMemory> {
    let mut columns = ListOf::new(alloc)?;
    for (name, kind) in list {
        let name = name_of(name)?;
        columns.push(alloc, Column { name, kind: *kind })?;
    }
    Ok(columns)
}

// A table that is open and loose, or neither.
fn table_of(rt: &impl Abort, alloc: Global, columns: Columns, rows: Rows, open: bool) -> Table
    requires { Distinct (row_ids rows) }
{
    assert!(rt; names_distinct(columns.as_slice()));
    assert!(rt; rows_fit(columns.as_slice(), rows.as_slice()));
    assert!(rt; open || all_sure(rows.as_slice()));
    match Table::new(alloc, columns, rows, open, open) {
        Ok(table) => table,
        Err(fault) => panic!(rt; "unexpected {fault:?}"),
    }
}

fn empty(rt: &impl Abort, alloc: Global) -> Result<Table, NoMemory> {
    let rows = rows_of(alloc, &[])?;
    Ok(table_of(rt, alloc, columns_of(alloc, &[])?, rows, false))
}

fn set(
    alloc: Global,
    env: &mut Env,
    name: &str,
    doubt: bool,
    held: Option<Table>,
) -> Result<(), NoMemory> {
    let table = match held {
        Some(table) => Some(ArcOf::new(alloc, table)?),
        None => None,
    };
    env.set(alloc, name_of(name)?, Slot { table, doubt })
}

fn settled_of(alloc: Global, env: Env) -> Result<Settled, NoMemory> {
    let cells: Cells = ListOf::new(alloc)?;
    let results: Results = ListOf::new(alloc)?;
    Ok(Settled {
        cells,
        results,
        env,
    })
}

// Adds a cell that ended like this and printed these lines.
fn add_cell(
    rt: &impl Abort,
    alloc: Global,
    settled: &mut Settled,
    id: u32,
    status: CellStatus,
    lines: &[(&str, bool)],
) -> Result<(), NoMemory> {
    let table = ArcOf::new(alloc, empty(rt, alloc)?)?;
    let kind = CellKind::Make {
        name: name_of("t")?,
        table,
    };
    let picks = ArcOf::new(alloc, Picks::new(alloc)?)?;
    let cell = Cell { id, kind, picks };
    settled.cells.push(alloc, ArcOf::new(alloc, cell)?)?;
    let mut outcome = CellResult::bare(alloc, status)?;
    for (text, marked) in lines {
        let text = words_of(alloc, text)?;
        outcome.lines.push(
            alloc,
            Line {
                text,
                marked: *marked,
            },
        )?;
    }
    settled.results.push(alloc, ArcOf::new(alloc, outcome)?)
}

pub fn sink_of(alloc: Global, room: u64, fails: &[u64]) -> Result<MemorySink, NoMemory> {
    let mut numbers = Numbers::new(alloc)?;
    for number in fails {
        numbers.push(alloc, *number)?;
    }
    MemorySink::new(alloc, room, numbers)
}

// Writes the block of this version of `main`.
fn write(
    rt: &impl Abort,
    alloc: Global,
    sink: &mut MemorySink,
    version: u32,
    settled: &Settled,
) -> Result<(), WriteFault> {
    assert_eq!(rt; settled.results.len(), settled.cells.len());
    let branch = name_of("main")?;
    write_block(alloc, sink, version, &branch, settled)
}

fn is_block(
    rt: &impl Abort,
    alloc: Global,
    version: u32,
    settled: &Settled,
    want: &str,
) -> Result<(), NoMemory> {
    let mut sink = sink_of(alloc, 1_000_000, &[])?;
    assert_eq!(rt; write(rt, alloc, &mut sink, version, settled), Ok(()));
    assert_eq!(rt; sink.written(), want.as_bytes(), "wanted {want}");
    Ok(())
}

fn plainest(rt: &impl Abort, alloc: Global) -> Result<Settled, NoMemory> {
    let columns = columns_of(alloc, &[("a", ColumnType::Int), ("b", ColumnType::Text)])?;
    let first = [Field::Int(1, false), Field::Text("x")];
    let second = [Field::Int(2, false), Field::Null(false)];
    let rows = rows_of(alloc, &[(true, &first), (true, &second)])?;
    let mut env = Env::new(alloc)?;
    set(
        alloc,
        &mut env,
        "t",
        false,
        Some(table_of(rt, alloc, columns, rows, false)),
    )?;
    let mut settled = settled_of(alloc, env)?;
    add_cell(rt, alloc, &mut settled, 1, CellStatus::Ok, &[])?;
    Ok(settled)
}

#[test]
fn the_plainest_block_is_written_byte_for_byte(rt: HostRuntime) -> Result<(), Fail> {
    let settled = plainest(&rt, rt.alloc())?;
    is_block(
        &rt,
        rt.alloc(),
        1,
        &settled,
        "version 1 main
cell 1 #1 ok
dataset t
  columns a int, b text
  #1: 1, \"x\"
  #2: 2, null
end 1
",
    )?;
    Ok(())
}

// Lines, and a dataset with every mark, a doubtful one, and names that are absent.
fn marked_block(rt: &impl Abort, alloc: Global, blurred: bool) -> Result<Settled, NoMemory> {
    let columns = columns_of(alloc, &[("a", ColumnType::Int), ("b", ColumnType::Int)])?;
    let first = [Field::Int(1, false), Field::Null(true)];
    let second = [Field::Int(2, false), Field::Int(3, true)];
    let rows = rows_of(alloc, &[(true, &first), (false, &second)])?;
    let mut env = Env::new(alloc)?;
    if blurred {
        env.blur(alloc)?;
    }
    set(alloc, &mut env, "u", false, None)?;
    set(alloc, &mut env, "t", true, None)?;
    set(alloc, &mut env, "s", true, Some(empty(rt, alloc)?))?;
    set(
        alloc,
        &mut env,
        "r",
        false,
        Some(table_of(rt, alloc, columns, rows, true)),
    )?;
    let mut settled = settled_of(alloc, env)?;
    let lines = [("1", false), ("null", true)];
    add_cell(rt, alloc, &mut settled, 1, CellStatus::Ok, &lines)?;
    add_cell(
        rt,
        alloc,
        &mut settled,
        4,
        CellStatus::Error(CellError::Fuel),
        &[],
    )?;
    add_cell(rt, alloc, &mut settled, 3, CellStatus::Blocked, &[])?;
    Ok(settled)
}

#[test]
fn marks_doubt_and_absence_are_shown(rt: HostRuntime) -> Result<(), Fail> {
    let certain = "version 7 main
cell 1 #1 ok
  | 1
  |~ null
cell 2 #4 error Fuel
cell 3 #3 blocked
dataset r open loose
  columns a int, b int
  #1: 1, ~null
  ?#2: 2, ~3
dataset ?s
  columns
absent ?t
end 7
";
    let blurred = "version 7 main
cell 1 #1 ok
  | 1
  |~ null
cell 2 #4 error Fuel
cell 3 #3 blocked
dataset r open loose
  columns a int, b int
  #1: 1, ~null
  ?#2: 2, ~3
dataset ?s
  columns
absent ?t
absent u
absent ?*
end 7
";
    for (blur, want) in [(false, certain), (true, blurred)] {
        let settled = marked_block(&rt, rt.alloc(), blur)?;
        is_block(&rt, rt.alloc(), 7, &settled, want)?;
    }
    Ok(())
}

#[test]
fn each_error_of_a_cell_has_its_name(rt: HostRuntime) -> Result<(), Fail> {
    for (error, name) in [
        (CellError::Syntax { at: 13 }, "Syntax at 13"),
        (CellError::NoDataset, "NoDataset"),
        (CellError::NoColumn, "NoColumn"),
        (CellError::TypeFault, "TypeFault"),
        (CellError::Overflow, "Overflow"),
        (CellError::ZeroDivisor, "ZeroDivisor"),
        (CellError::TooLarge, "TooLarge"),
        (CellError::Fuel, "Fuel"),
        (CellError::NameTaken, "NameTaken"),
        (CellError::NoRow, "NoRow"),
        (CellError::RowTaken, "RowTaken"),
        (CellError::NoHeader, "NoHeader"),
        (CellError::BadCast, "BadCast"),
    ] {
        let mut settled = settled_of(rt.alloc(), Env::new(rt.alloc())?)?;
        add_cell(
            &rt,
            rt.alloc(),
            &mut settled,
            1,
            CellStatus::Error(error),
            &[],
        )?;
        let want = format!(in rt.alloc(); "version 1 main\ncell 1 #1 error {name}\nend 1\n")?;
        is_block(&rt, rt.alloc(), 1, &settled, want.as_str())?;
    }
    Ok(())
}

#[test]
fn a_sink_that_is_full_holds_the_first_bytes(rt: HostRuntime) -> Result<(), Fail> {
    let settled = plainest(&rt, rt.alloc())?;
    let mut sink = sink_of(rt.alloc(), 10, &[])?;
    let answer = write(&rt, rt.alloc(), &mut sink, 1, &settled);
    assert_eq!(rt; answer, Err(WriteFault::Failed));
    assert_eq!(rt; sink.written(), b"version 1 ".as_slice());
    Ok(())
}

// A block of 10,000 lines, of 16 bytes each.
fn long_block(rt: &impl Abort, alloc: Global) -> Result<Settled, NoMemory> {
    let lines = [("0123456789a", false); 10_000];
    let mut settled = settled_of(alloc, Env::new(alloc)?)?;
    add_cell(rt, alloc, &mut settled, 1, CellStatus::Ok, lines.as_slice())?;
    Ok(settled)
}

#[test]
fn a_fault_in_a_long_block_leaves_what_was_written_before(rt: HostRuntime) -> Result<(), Fail> {
    let settled = long_block(&rt, rt.alloc())?;
    for (fails, want) in [(0, 160_034), (1, 0), (2, 65_536), (3, 131_072)] {
        let mut sink = sink_of(rt.alloc(), 1_000_000, &[fails])?;
        let answer = write(&rt, rt.alloc(), &mut sink, 1, &settled);
        assert_eq!(rt; answer.is_ok(), fails == 0, "call {fails}");
        assert!(rt; sink.written().len() >= want, "call {fails}");
        assert!(rt; sink.written().len() < want + 16, "call {fails}");
    }
    Ok(())
}

#[test]
fn a_name_that_was_dropped_has_a_line_once_all_is_in_doubt(rt: HostRuntime) -> Result<(), Fail> {
    let alloc = rt.alloc();
    let mut env = Env::new(alloc)?;
    set(alloc, &mut env, "u", false, None)?;
    env.blur(alloc)?;
    let mut settled = settled_of(alloc, env)?;
    add_cell(&rt, alloc, &mut settled, 1, CellStatus::Ok, &[])?;
    is_block(
        &rt,
        alloc,
        1,
        &settled,
        "version 1 main
cell 1 #1 ok
absent ?u
absent ?*
end 1
",
    )?;
    Ok(())
}
