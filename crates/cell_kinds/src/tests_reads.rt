//! Cells that read: spreadsheet commands and SELECTs.
use super::*;
use cell_errors::CellError;
use cell_model::{Cell, CellKind, CellStatus, CellWork, EnvReads, Record};
use dataset_types::{Columns, Env, Picks, Rows, Slot, Table};
use sheet_commands::Command;
use std::alloc::Global;
use std::test::*;
use value_types::{ArcOf, ColumnType, Name, NoMemory, Words, read_name};

fn name(text: &str) -> Result<Name, NoMemory> {
    read_name(text.as_bytes()).ok_or(NoMemory)
}

fn words(alloc: Global, text: &str) -> Result<Words, NoMemory> {
    let mut words = Words::new(alloc)?;
    words.push_text(alloc, text)?;
    Ok(words)
}

// The environment in which `t` is a dataset without columns and rows, in doubt or not.
fn env(alloc: Global, doubt: bool) -> Result<Env, NoMemory> {
    let columns = Columns::new(alloc)?;
    let rows = Rows::new(alloc)?;
    let Ok(table) = Table::new(alloc, columns, rows, false, false) else {
        return Err(NoMemory);
    };
    let table = Some(ArcOf::new(alloc, table)?);
    let mut env = Env::new(alloc)?;
    env.set(alloc, name("t")?, Slot { table, doubt })?;
    Ok(env)
}

fn run(alloc: Global, env: &Env, kind: CellKind) -> Result<Record<Kinds>, NoMemory> {
    let picks = ArcOf::new(alloc, Picks::new(alloc)?)?;
    let cell = ArcOf::new(alloc, Cell { id: 1, kind, picks })?;
    let mut reads = EnvReads::new(alloc, env)?;
    Kinds::new()
        .run(alloc, &cell, &mut reads)
        .map_err(|_| NoMemory)
}

#[test]
fn a_command_reads_its_dataset_and_writes_it(rt: HostRuntime) -> Result<(), Fail> {
    let alloc = rt.alloc();
    let command = Command::InsertColumn {
        dataset: name("t")?,
        name: name("a")?,
        kind: ColumnType::Int,
        at: 1,
    };
    let record = run(alloc, &env(alloc, true)?, CellKind::Vizual(command))?;
    assert_eq!(rt; record.reads().len(), 1);
    assert_eq!(rt; record.outcome().status, CellStatus::Ok);
    let writes = record.outcome().writes.as_slice();
    assert_eq!(rt; writes.len(), 1);
    let written = writes.first().ok_or("no write")?;
    assert!(rt; written.slot.doubt);
    let table = written.slot.table.as_ref().ok_or("no dataset")?;
    assert_eq!(rt; table.get().columns().len(), 1);
    Ok(())
}

#[test]
fn a_select_reads_its_datasets_and_writes_another(rt: HostRuntime) -> Result<(), Fail> {
    let alloc = rt.alloc();
    for doubt in [false, true] {
        let kind = CellKind::Sql {
            text: words(alloc, "SELECT 1 AS one FROM t")?,
            into: name("u")?,
        };
        let record = run(alloc, &env(alloc, doubt)?, kind)?;
        assert_eq!(rt; record.reads().len(), 1);
        assert_eq!(rt; record.outcome().status, CellStatus::Ok);
        let writes = record.outcome().writes.as_slice();
        assert_eq!(rt; writes.len(), 1);
        let written = writes.first().ok_or("no write")?;
        assert_eq!(rt; written.name.as_text(), "u");
        assert_eq!(rt; written.slot.doubt, doubt);
        let table = written.slot.table.as_ref().ok_or("no dataset")?;
        assert_eq!(rt; table.get().columns().len(), 1);
        assert_eq!(rt; table.get().rows().len(), 0);
    }
    Ok(())
}

#[test]
fn an_absent_dataset_is_an_error_that_was_read(rt: HostRuntime) -> Result<(), Fail> {
    let alloc = rt.alloc();
    let drop = Command::DropDataset {
        dataset: name("u")?,
    };
    let record = run(alloc, &env(alloc, false)?, CellKind::Vizual(drop))?;
    let error = CellStatus::Error(CellError::NoDataset);
    assert_eq!(rt; record.reads().len(), 1);
    assert_eq!(rt; record.outcome().status, error);
    let select = CellKind::Sql {
        text: words(alloc, "SELECT * FROM t JOIN u ON TRUE")?,
        into: name("v")?,
    };
    let record = run(alloc, &env(alloc, false)?, select)?;
    assert_eq!(rt; record.reads().len(), 2);
    assert_eq!(rt; record.outcome().status, error);
    Ok(())
}
