//! Kept runs over a work whose cells do nothing but count that they are run.
ghost use Rattle.kept_runs.specs.Kept.{IsDone};

use super::*;
use cell_model::{
    Cell, CellKind, CellMeaning, CellResult, CellStatus, CellWork, Ended, Estimate, Policy, Ran,
    Reads, Record,
};
use dataset_types::{Columns, Picks, Rows, Slots, Table};
use std::alloc::Global;
use std::cell;
use std::process::Abort;
use std::test::*;
use value_types::{ArcOf, Name, Names, NoMemory, read_name};

// Every cell is done at once and gives nothing. The number of cells that were run is counted.
#[derive(Drop)]
struct Idle {
    runs: cell::Cell<u32>,
}

impl CellMeaning for Idle {
    ghost use Rattle.kept_runs.specs.Idle.{idle_meaning, idle_names, idle_estimate, idle_is_bare};

    ghost meaning = { idle_meaning };

    ghost names = { idle_names };

    ghost estimate = { idle_estimate };

    ghost bare = { idle_is_bare };
}

impl CellWork for Idle {
    fn run<R: Reads>(
        &self,
        alloc: Global,
        cell: &ArcOf<Cell>,
        _reads: &mut R,
    ) -> Result<Record<Self>, Ended> {
        self.runs.set(self.runs.get().saturating_add(1));
        let outcome = CellResult::bare(alloc, CellStatus::Ok)?;
        Ok(Record::new(cell.copy(alloc)?, Slots::new(alloc)?, outcome))
    }

    fn estimate(&self, alloc: Global, _cell: &Cell) -> Result<Estimate, NoMemory> {
        Ok(Estimate {
            reads: Names::new(alloc)?,
            writes: Names::new(alloc)?,
        })
    }
}

fn name(text: &str) -> Result<Name, NoMemory> {
    read_name(text.as_bytes()).ok_or(NoMemory)
}

fn numbered(alloc: Global, id: u32) -> Result<ArcOf<Cell>, NoMemory> {
    let columns = Columns::new(alloc)?;
    let table = match Table::new(alloc, columns, Rows::new(alloc)?, false, false) {
        Ok(table) => ArcOf::new(alloc, table)?,
        Err(_) => return Err(NoMemory),
    };
    let kind = CellKind::Make {
        name: name("t")?,
        table,
    };
    let picks = ArcOf::new(alloc, Picks::new(alloc)?)?;
    ArcOf::new(alloc, Cell { id, kind, picks })
}

// The number of steps of a run that found memory.
fn steps(rt: &impl Abort, ran: Ran) -> usize
    ensures { IsDone ran }
{
    match ran {
        Ran::Done(trail) => trail.len(),
        Ran::Starved { position } => panic!(rt; "no memory at {position}"),
    }
}

#[test]
fn each_version_that_is_run_is_kept(rt: HostRuntime) -> Result<(), Fail> {
    let alloc = rt.alloc();
    let idle = Idle {
        runs: cell::Cell::new(0),
    };
    let mut kept: Kept<Idle> = Kept::new(alloc, Policy::Stop)?;
    assert!(rt; kept.policy() == Policy::Stop);
    assert_eq!(rt; kept.len(), 0);
    let first = [numbered(alloc, 1)?, numbered(alloc, 2)?];
    assert_eq!(rt; steps(&rt, kept.run(alloc, &idle, 0, 0, &first)?), 2);
    let second = [
        numbered(alloc, 3)?,
        numbered(alloc, 4)?,
        numbered(alloc, 5)?,
    ];
    assert_eq!(rt; steps(&rt, kept.run(alloc, &idle, 0, 0, &second)?), 3);
    assert_eq!(rt; kept.len(), 2);
    Ok(())
}

#[test]
fn cells_that_are_shared_are_not_run_again(rt: HostRuntime) -> Result<(), Fail> {
    let alloc = rt.alloc();
    let idle = Idle {
        runs: cell::Cell::new(0),
    };
    let mut kept: Kept<Idle> = Kept::new(alloc, Policy::Stop)?;
    let first = [numbered(alloc, 1)?, numbered(alloc, 2)?];
    assert_eq!(rt; steps(&rt, kept.run(alloc, &idle, 0, 0, &first)?), 2);
    assert_eq!(rt; idle.runs.get(), 2);
    let second = [
        first[0].copy(alloc)?,
        first[1].copy(alloc)?,
        numbered(alloc, 3)?,
    ];
    assert_eq!(rt; steps(&rt, kept.run(alloc, &idle, 1, 2, &second)?), 3);
    assert_eq!(rt; idle.runs.get(), 3);
    assert_eq!(rt; kept.len(), 2);
    Ok(())
}
