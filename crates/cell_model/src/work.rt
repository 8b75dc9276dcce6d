//! Works, which run cells as they are meant.
ghost use Rattle.std.specs.Prelude.{◌≡◌, [], None, IfOk, IfErr, IfSome, OnOk};
ghost use Rattle.dataset_types.specs.Slots.{Gives};
ghost use Rattle.cell_model.specs.Reading.{Ends};

use crate::cell::Cell;
use crate::reads::{Ended, Reads};
use crate::record::{CellMeaning, Record};
use std::alloc::Global;
use value_types::{ArcOf, Names, NoMemory};

/// The names that a cell may read and write, as told without running it.
#[derive(Drop)]
pub struct Estimate {
    pub reads: Names,
    pub writes: Names,
}

impl Estimate {
    pub fn copy(&self, alloc: Global) -> Result<Estimate, NoMemory>
        ensures { IfOk result (λ e. e ≡ self.now) }
    {
        Ok(Estimate {
            reads: self.reads.copy(alloc)?,
            writes: self.writes.copy(alloc)?,
        })
    }
}

/// Runs cells as they are meant.
pub trait CellWork: CellMeaning {
    /// A record of this cell whose reads are those that were asked.
    ///
    /// - Error: an end other than want of memory only where a read answered it in this call.
    fn run<R: Reads>(
        &self,
        alloc: Global,
        cell: &ArcOf<Cell>,
        reads: &mut R,
    ) -> Result<Record<Self>, Ended>
    where
        Self: Sized,
        requires fresh { R.asked reads.old ≡ [] }
        requires going { R.ended reads.old ≡ None }
        ensures cell { IfOk result (λ r. r.cell ≡ cell.now) }
        ensures reads { IfOk result (λ r. r.reads ≡ R.asked reads.new) }
        ensures ended { IfErr result (λ e. Ends e (R.ended reads.new)) }
        ensures source { R.source reads.new ≡ R.source reads.old }
        ensures agrees { OnOk result
            (IfSome (R.source reads.old) (λ look. Gives look (R.asked reads.new))) };

    /// The names that a cell may read and write.
    fn estimate(&self, alloc: Global, cell: &Cell) -> Result<Estimate, NoMemory>
        ensures { IfOk result (λ e. e ≡ Self.estimate cell.now) };
}
