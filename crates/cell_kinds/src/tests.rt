//! Make cells, run one after another.
use super::*;
use cell_model::{Cell, CellKind, CellStatus, CellWork, Policy, RunAll, Settled, run_all};
use dataset_types::{Columns, Picks, Rows, Slot, Table, slot_same};
use std::alloc::Global;
use std::process::Abort;
use std::test::*;
use value_types::{ArcOf, Name, NoMemory, read_name};

fn name(text: &str) -> Result<Name, NoMemory> {
    read_name(text.as_bytes()).ok_or(NoMemory)
}

// A dataset without columns and rows, told from another by its order.
fn table(alloc: Global, is_loose: bool) -> Result<ArcOf<Table>, NoMemory> {
    let columns = Columns::new(alloc)?;
    let rows = Rows::new(alloc)?;
    match Table::new(alloc, columns, rows, false, is_loose) {
        Ok(table) => ArcOf::new(alloc, table),
        Err(_) => Err(NoMemory),
    }
}

fn make(alloc: Global, id: u32, text: &str, is_loose: bool) -> Result<ArcOf<Cell>, NoMemory> {
    let kind = CellKind::Make {
        name: name(text)?,
        table: table(alloc, is_loose)?,
    };
    let picks = ArcOf::new(alloc, Picks::new(alloc)?)?;
    ArcOf::new(alloc, Cell { id, kind, picks })
}

fn slot(alloc: Global, is_loose: bool) -> Result<Slot, NoMemory> {
    Ok(Slot {
        table: Some(table(alloc, is_loose)?),
        doubt: false,
    })
}

fn settled(rt: &impl Abort, answer: RunAll) -> Settled {
    match answer {
        RunAll::Done(settled) => settled,
        RunAll::Starved { position } => panic!(rt; "no memory at {position}"),
    }
}

#[test]
fn each_make_cell_writes_its_table(rt: HostRuntime) -> Result<(), Fail> {
    let alloc = rt.alloc();
    let cells = [make(alloc, 1, "t", false)?, make(alloc, 2, "u", true)?];
    let run = settled(&rt, run_all(alloc, &Kinds::new(), Policy::Stop, &cells));
    assert_eq!(rt; run.results.len(), 2);
    for outcome in run.results.as_slice() {
        assert_eq!(rt; outcome.get().status, CellStatus::Ok);
        assert_eq!(rt; outcome.get().lines.len(), 0);
        assert!(rt; !outcome.get().blur);
    }
    assert_eq!(rt; run.env.slots().len(), 2);
    assert!(rt; slot_same(&run.env.get(alloc, &name("t")?)?, &slot(alloc, false)?));
    assert!(rt; slot_same(&run.env.get(alloc, &name("u")?)?, &slot(alloc, true)?));
    Ok(())
}

#[test]
fn a_make_cell_is_estimated_by_two_empty_lists(rt: HostRuntime) -> Result<(), Fail> {
    let alloc = rt.alloc();
    let cell = make(alloc, 1, "t", false)?;
    let estimate = Kinds::new().estimate(alloc, cell.get())?;
    assert_eq!(rt; estimate.reads.len(), 0);
    assert_eq!(rt; estimate.writes.len(), 0);
    Ok(())
}
