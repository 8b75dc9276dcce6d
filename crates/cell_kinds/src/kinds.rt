//! The work that runs every kind of cell.
ghost use Rattle.std.specs.Prelude.{◌≡◌, [], None};
ghost use Rattle.cell_model.specs.Works.{KeepsSource};
ghost use Rattle.cell_kinds.specs.Kinds.{meaning, names};
ghost use Rattle.cell_kinds.specs.Written.{IsResult};

use crate::load::load_result;
use crate::make::make_result;
use crate::sql::sql_result;
use crate::vizual::vizual_result;
use cell_model::{
    Cell, CellKind, CellMeaning, CellResult, CellWork, Ended, Estimate, Reads, Record,
};
use std::alloc::Global;
use value_types::{ArcOf, Names, NoMemory};

/// Runs each kind of cell.
#[derive(Clone, Copy, Debug, PartialEq, Eq)]
pub struct Kinds;

// What a cell gives, and what its reads fix of that.
#[tactic(auto, unfolding(crate::specs::Kinds::kind_meaning, crate::specs::Kinds::kind_names))]
fn outcome_of<R: Reads>(alloc: Global, cell: &Cell, reads: &mut R) -> Result<CellResult, Ended>
    requires fresh { R.asked reads.old ≡ [] }
    requires going { R.ended reads.old ≡ None }
    ensures works { IsResult (meaning cell.now) (names cell.now) result
        (R.asked reads.new) (R.ended reads.new) }
    ensures source { KeepsSource (R.source reads.old) (R.source reads.new) (R.asked reads.new) }
{
    let (id, picks) = (cell.id, cell.picks.get());
    match &cell.kind {
        CellKind::Make { name, table } => Ok(make_result(alloc, name, table)?),
        CellKind::Load {
            name,
            bytes,
            types,
            repair,
        } => {
            let bytes = bytes.get().as_slice();
            Ok(load_result(alloc, id, picks, name, bytes, types, *repair)?)
        }
        CellKind::Vizual(command) => vizual_result(alloc, id, picks, command, reads),
        CellKind::Sql { text, into } => sql_result(alloc, id, picks, text, into, reads),
    }
}

impl Kinds {
    /// The work of all kinds.
    pub fn new() -> Kinds
        ensures { result ≡ record {} }
    {
        Kinds
    }
}

impl CellMeaning for Kinds {
    ghost use Rattle.cell_kinds.specs.Kinds.{meaning, names, estimate};
    ghost use Rattle.cell_kinds.specs.Bare.{meaning_is_bare};

    ghost meaning = { meaning };

    ghost names = { names };

    ghost estimate = { estimate };

    ghost bare = { meaning_is_bare };
}

impl CellWork for Kinds {
    fn run<R: Reads>(
        &self,
        alloc: Global,
        cell: &ArcOf<Cell>,
        reads: &mut R,
    ) -> Result<Record<Self>, Ended> {
        let outcome = outcome_of(alloc, cell.get(), reads)?;
        let asked = reads.answered(alloc)?;
        Ok(Record::new(cell.copy(alloc)?, asked, outcome))
    }

    fn estimate(&self, alloc: Global, _cell: &Cell) -> Result<Estimate, NoMemory> {
        Ok(Estimate {
            reads: Names::new(alloc)?,
            writes: Names::new(alloc)?,
        })
    }
}
