//! Runs over a small work, and each call that may want memory.
ghost use Rattle.std.specs.Prelude.{◌≡◌, ◌∷◌, [], Some, IfOk};
ghost use Rattle.cell_model.specs.Sample.{one_write, doubted};

use super::*;
use cell_errors::CellError;
use dataset_types::{Columns, Env, Picks, Rows, Slot, Slots, Table, slot_same};
use std::alloc::Global;
use std::process::Abort;
use std::test::*;
use value_types::{ArcOf, Name, Names, NoMemory, Words, read_name};

// Cell 2 is in error, cell 3 reads its name's dataset and writes it in doubt, and each other writes its own.
#[derive(Clone, Copy)]
struct Sample;

impl CellMeaning for Sample {
    ghost use Rattle.cell_model.specs.Sample.{sample_meaning, sample_names, sample_estimate, sample_is_bare};

    ghost meaning = { sample_meaning };

    ghost names = { sample_names };

    ghost estimate = { sample_estimate };

    ghost bare = { sample_is_bare };
}

impl CellWork for Sample {
    fn run<R: Reads>(
        &self,
        alloc: Global,
        cell: &ArcOf<Cell>,
        reads: &mut R,
    ) -> Result<Record<Self>, Ended> {
        let CellKind::Make { name, table } = &cell.get().kind else {
            let outcome = CellResult::bare(alloc, CellStatus::Ok)?;
            return Ok(Record::new(cell.copy(alloc)?, Slots::new(alloc)?, outcome));
        };
        match cell.get().id {
            2 => {
                let outcome = CellResult::bare(alloc, CellStatus::Error(CellError::ZeroDivisor))?;
                Ok(Record::new(cell.copy(alloc)?, Slots::new(alloc)?, outcome))
            }
            3 => {
                let slot = reads.read(alloc, name)?;
                let asked = reads.answered(alloc)?;
                let outcome = doubted(alloc, name, &slot)?;
                Ok(Record::new(cell.copy(alloc)?, asked, outcome))
            }
            _ => {
                let outcome = one_write(alloc, name, table.copy(alloc)?, false)?;
                Ok(Record::new(cell.copy(alloc)?, Slots::new(alloc)?, outcome))
            }
        }
    }

    fn estimate(&self, alloc: Global, cell: &Cell) -> Result<Estimate, NoMemory> {
        let CellKind::Make { name, .. } = &cell.kind else {
            return Ok(Estimate {
                reads: Names::new(alloc)?,
                writes: Names::new(alloc)?,
            });
        };
        Ok(Estimate {
            reads: one_name(alloc, name)?,
            writes: one_name(alloc, name)?,
        })
    }
}

fn one_name(alloc: Global, name: &Name) -> Result<Names, NoMemory>
    ensures { IfOk result (λ names. names ≡ name.now ∷ []) }
{
    let mut names = Names::new(alloc)?;
    names.push(alloc, name.copy())?;
    Ok(names)
}

fn one_write(
    alloc: Global,
    name: &Name,
    table: ArcOf<Table>,
    doubt: bool,
) -> Result<CellResult, NoMemory>
    ensures { IfOk result (λ r. r ≡ one_write name.now (record { table = Some table; doubt = doubt })) }
{
    let mut writes = Writes::new(alloc)?;
    let slot = Slot {
        table: Some(table),
        doubt,
    };
    writes.push(alloc, name.copy(), slot)?;
    Ok(CellResult {
        status: CellStatus::Ok,
        lines: Lines::new(alloc)?,
        writes,
        blur: false,
    })
}

fn doubted(alloc: Global, name: &Name, slot: &Slot) -> Result<CellResult, NoMemory>
    ensures { IfOk result (λ r. r ≡ doubted name.now slot.now.table) }
{
    match &slot.table {
        Some(table) => one_write(alloc, name, table.copy(alloc)?, true),
        None => CellResult::bare(alloc, CellStatus::Error(CellError::NoDataset)),
    }
}

fn name(text: &str) -> Result<Name, NoMemory> {
    read_name(text.as_bytes()).ok_or(NoMemory)
}

// A dataset without columns and rows, told from another by its order.
fn table(alloc: Global, is_loose: bool) -> Result<ArcOf<Table>, NoMemory> {
    let columns = Columns::new(alloc)?;
    let rows = Rows::new(alloc)?;
    match Table::new(alloc, columns, rows, false, is_loose) {
        Ok(table) => ArcOf::new(alloc, table),
        Err(_) => Err(NoMemory),
    }
}

fn cell(alloc: Global, id: u32, text: &str) -> Result<ArcOf<Cell>, NoMemory> {
    let kind = CellKind::Make {
        name: name(text)?,
        table: table(alloc, id == 1)?,
    };
    let picks = ArcOf::new(alloc, Picks::new(alloc)?)?;
    ArcOf::new(alloc, Cell { id, kind, picks })
}

fn settled(rt: &impl Abort, answer: RunAll) -> Settled {
    match answer {
        RunAll::Done(settled) => settled,
        RunAll::Starved { position } => panic!(rt; "no memory at {position}"),
    }
}

fn status(results: &Results, at: usize) -> Option<CellStatus> {
    match results.get(at) {
        Some(outcome) => Some(outcome.get().status),
        None => None,
    }
}

fn listed(env: &Env) -> usize {
    env.slots().len()
}

#[test]
fn an_error_blocks_the_cells_after_it_or_is_carried(rt: HostRuntime) -> Result<(), Fail> {
    let alloc = rt.alloc();
    let cells = [
        cell(alloc, 1, "t")?,
        cell(alloc, 2, "u")?,
        cell(alloc, 4, "w")?,
    ];
    let error = CellStatus::Error(CellError::ZeroDivisor);
    for (policy, last, names) in [
        (Policy::Stop, CellStatus::Blocked, 1),
        (Policy::Carry, CellStatus::Ok, 2),
    ] {
        let run = settled(&rt, run_all(alloc, &Sample, policy, &cells));
        assert_eq!(rt; run.cells.len(), 3, "{policy:?}");
        assert_eq!(rt; status(&run.results, 0), Some(CellStatus::Ok), "{policy:?}");
        assert_eq!(rt; status(&run.results, 1), Some(error), "{policy:?}");
        assert_eq!(rt; status(&run.results, 2), Some(last), "{policy:?}");
        assert_eq!(rt; status(&run.results, 3), None, "{policy:?}");
        assert_eq!(rt; listed(&run.env), names, "{policy:?}");
    }
    Ok(())
}

#[test]
fn a_cell_reads_what_stands_before_it(rt: HostRuntime) -> Result<(), Fail> {
    let alloc = rt.alloc();
    let missing = settled(
        &rt,
        run_all(alloc, &Sample, Policy::Stop, &[cell(alloc, 3, "t")?]),
    );
    let want = CellStatus::Error(CellError::NoDataset);
    assert_eq!(rt; status(&missing.results, 0), Some(want));
    assert_eq!(rt; listed(&missing.env), 0);

    let cells = [cell(alloc, 1, "t")?, cell(alloc, 3, "t")?];
    let there = settled(&rt, run_all(alloc, &Sample, Policy::Stop, &cells));
    assert_eq!(rt; status(&there.results, 1), Some(CellStatus::Ok));
    let want = Slot {
        table: Some(table(alloc, true)?),
        doubt: true,
    };
    assert!(rt; slot_same(&there.env.get(alloc, &name("t")?)?, &want));
    Ok(())
}

#[test]
fn no_cells_are_done_at_once(rt: HostRuntime) -> Result<(), Fail> {
    let run = settled(&rt, run_all(rt.alloc(), &Sample, Policy::Stop, &[]));
    assert_eq!(rt; run.cells.len(), 0);
    assert_eq!(rt; run.results.len(), 0);
    assert_eq!(rt; listed(&run.env), 0);
    Ok(())
}

#[test]
fn a_run_goes_on_from_its_front(rt: HostRuntime) -> Result<(), Fail> {
    let alloc = rt.alloc();
    let cells = [cell(alloc, 1, "t")?, cell(alloc, 3, "t")?];
    match run_on(alloc, &Sample, Policy::Stop, Trail::new(alloc)?, &cells) {
        Ran::Done(trail) => {
            assert_eq!(rt; trail.len(), 2);
            let front = front_of(alloc, &trail, 1)?;
            assert_eq!(rt; front.len(), 1);
            let first = Settled::from_trail(alloc, &front)?;
            assert_eq!(rt; status(&first.results, 0), Some(CellStatus::Ok));
            assert_eq!(rt; listed(&first.env), 1);
        }
        Ran::Starved { position } => panic!(rt; "no memory at {position}"),
    }
    Ok(())
}

fn record(alloc: Global, cell: &ArcOf<Cell>) -> Result<Record<Sample>, NoMemory> {
    let env = Env::new(alloc)?;
    let mut reads = EnvReads::new(alloc, &env)?;
    Sample.run(alloc, cell, &mut reads).map_err(|_| NoMemory)
}

#[test]
fn a_copied_run_has_the_same_parts(rt: HostRuntime) -> Result<(), Fail> {
    let alloc = rt.alloc();
    let cells = [cell(alloc, 1, "t")?];
    let run = settled(&rt, run_all(alloc, &Sample, Policy::Stop, &cells)).copy(alloc)?;
    assert_eq!(rt; run.cells.len(), 1);
    assert_eq!(rt; status(&run.results, 0), Some(CellStatus::Ok));
    assert_eq!(rt; listed(&run.env), 1);
    Ok(())
}

#[test]
fn a_copied_record_has_the_same_parts(rt: HostRuntime) -> Result<(), Fail> {
    let alloc = rt.alloc();
    let record = record(alloc, &cell(alloc, 1, "t")?)?.copy(alloc)?;
    assert_eq!(rt; record.cell().get().copy(alloc)?.id, 1);
    assert_eq!(rt; record.reads().len(), 0);
    let writes = record.outcome().copy(alloc)?.writes.copy(alloc)?;
    assert_eq!(rt; writes.as_slice().len(), 1);
    assert!(rt; writes.has(&name("t")?));
    assert!(rt; !writes.has(&name("u")?));
    Ok(())
}

#[test]
fn a_copied_estimate_line_and_end_are_the_same(rt: HostRuntime) -> Result<(), Fail> {
    let alloc = rt.alloc();
    let estimate = Sample
        .estimate(alloc, cell(alloc, 1, "t")?.get())?
        .copy(alloc)?;
    assert_eq!(rt; estimate.reads.len(), 1);
    assert_eq!(rt; estimate.writes.len(), 1);
    assert!(rt; matches!(Ended::Stale(name("t")?).copy(), Ended::Stale(_)));
    let line = Line {
        text: Words::new(alloc)?,
        marked: true,
    };
    assert!(rt; line.copy(alloc)?.marked);
    Ok(())
}
