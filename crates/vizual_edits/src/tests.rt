//! Commands over an environment of two datasets without columns and rows: `t`, and `u` in doubt; whether there is a dataset `x` is in
//! doubt too, and there is none. What a command writes is shown as one line, and after it the names that it read.
//!
//! What other test modules call has no contract: tests look at what they get.
use crate::apply;
use crate::tests_commands::{copy, drop, insert_column, insert_row, named, rename};
use cell_errors::CellError;
use cell_model::{EnvReads, Reads, WorkFault, Writes};
use dataset_types::{Columns, Env, Named, Picks, Rows, Slot, Table};
use sheet_commands::Command;
use std::alloc::Global;
use std::test::*;
use value_types::{ArcOf, NoMemory, Words};

fn table(alloc: Global) -> Result<ArcOf<Table>, NoMemory> {
    let columns = Columns::new(alloc)?;
    match Table::new(alloc, columns, Rows::new(alloc)?, false, false) {
        Ok(table) => ArcOf::new(alloc, table),
        Err(_) => Err(NoMemory),
    }
}

pub(crate) fn env(alloc: Global) -> Result<Env, NoMemory> {
    let mut env = Env::new(alloc)?;
    for (name, doubt) in [("t", false), ("u", true)] {
        let slot = Slot {
            table: Some(table(alloc)?),
            doubt,
        };
        env.set(alloc, named(name)?, slot)?;
    }
    let none = Slot {
        table: None,
        doubt: true,
    };
    env.set(alloc, named("x")?, none)?;
    Ok(env)
}

fn push_slot(alloc: Global, out: &mut Words, one: &Named) -> Result<(), NoMemory> {
    out.push_text(alloc, if one.slot.doubt { "?" } else { "" })?;
    out.push_text(alloc, one.name.as_text())?;
    match &one.slot.table {
        None => out.push_text(alloc, " none; "),
        Some(table) if table.get().columns().len() == 1 => out.push_text(alloc, " one column; "),
        Some(table) if table.get().rows().len() == 1 => out.push_text(alloc, " one row; "),
        Some(_) => out.push_text(alloc, " empty; "),
    }
}

fn name_of(fault: &WorkFault) -> &'static str {
    match fault {
        WorkFault::Error(CellError::Syntax { at: 3 }) => "Syntax at 3; ",
        WorkFault::Error(CellError::NoDataset) => "NoDataset; ",
        WorkFault::Error(CellError::NoColumn) => "NoColumn; ",
        WorkFault::Error(CellError::NoRow) => "NoRow; ",
        WorkFault::Error(CellError::NameTaken) => "NameTaken; ",
        _ => "another fault; ",
    }
}

fn push_answer(
    alloc: Global,
    out: &mut Words,
    answer: &Result<Writes, WorkFault>,
) -> Result<(), NoMemory> {
    match answer {
        Ok(writes) => {
            for one in writes.as_slice() {
                push_slot(alloc, out, one)?;
            }
            Ok(())
        }
        Err(fault) => out.push_text(alloc, name_of(fault)),
    }
}

fn line_of(alloc: Global, command: &Command) -> Result<Words, NoMemory> {
    let env = env(alloc)?;
    let mut reads = EnvReads::new(alloc, &env)?;
    let answer = apply(alloc, command, 1, &Picks::new(alloc)?, &mut reads);
    let mut out = Words::new(alloc)?;
    push_answer(alloc, &mut out, &answer)?;
    for one in reads.answered(alloc)?.as_slice() {
        out.push_text(alloc, one.name.as_text())?;
    }
    Ok(out)
}

pub(crate) fn gives(alloc: Global, command: Result<Command, NoMemory>, want: &str) -> bool {
    match command {
        Ok(command) => match line_of(alloc, &command) {
            Ok(line) => line.as_text() == want,
            Err(_) => false,
        },
        Err(_) => false,
    }
}

#[test]
fn datasets_are_renamed_copied_and_dropped(rt: HostRuntime) {
    let alloc = rt.alloc();
    assert!(rt; gives(alloc, rename("t", "v"), "v empty; t none; tv"));
    assert!(rt; gives(alloc, rename("u", "v"), "?v empty; u none; uv"));
    assert!(rt; gives(alloc, copy("t", "v"), "v empty; tv"));
    assert!(rt; gives(alloc, copy("u", "v"), "?v empty; uv"));
    assert!(rt; gives(alloc, drop("t"), "t none; t"));
    assert!(rt; gives(alloc, drop("u"), "u none; u"));
}

// The doubt of what was there before goes.
#[test]
fn a_name_without_a_dataset_is_free_also_in_doubt(rt: HostRuntime) {
    let alloc = rt.alloc();
    assert!(rt; gives(alloc, rename("t", "x"), "x empty; t none; tx"));
    assert!(rt; gives(alloc, rename("u", "x"), "?x empty; u none; ux"));
    assert!(rt; gives(alloc, copy("t", "x"), "x empty; tx"));
    assert!(rt; gives(alloc, copy("u", "x"), "?x empty; ux"));
}

#[test]
fn datasets_are_changed_where_they_are(rt: HostRuntime) {
    let alloc = rt.alloc();
    assert!(rt; gives(alloc, insert_column("u", "a", 1), "?u one column; u"));
    assert!(rt; gives(alloc, insert_row(alloc, "t", "z", ""), "t one row; t"));
}
