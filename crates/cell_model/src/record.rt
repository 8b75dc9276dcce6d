//! What cells mean, and records of their runs that are valid by their type.
ghost use Rattle.std.specs.Prelude.{◌≡◌, IfOk};
ghost use Rattle.cell_model.specs.Records.{IsValid};

use crate::cell::Cell;
use crate::cell_result::CellResult;
use dataset_types::Slots;
use std::alloc::Global;
use std::marker::{Model, PhantomData};
use value_types::{ArcOf, NoMemory};

/// What cells mean. Records rest on it alone.
pub trait CellMeaning {
    ghost use Rattle.std.specs.Prelude.{List, ℕ};
    ghost use Rattle.dataset_types.specs.declared.slot.Slot.{Slot};
    ghost use Rattle.cell_model.specs.declared.cell.Cell.{Cell};
    ghost use Rattle.cell_model.specs.declared.cell_result.CellResult.{CellResult};
    ghost use Rattle.cell_model.specs.declared.work.Estimate.{Estimate};
    ghost use Rattle.cell_model.specs.Runs.{IsBare};

    /// What the cell gives in an environment.
    ghost meaning: { Cell → (List ℕ → Slot) → CellResult };

    /// The names that it reads there, in order.
    ghost names: { Cell → (List ℕ → Slot) → List (List ℕ) };

    /// The names that it may read and write.
    ghost estimate: { Cell → Estimate };

    /// A cell in error gives no lines, no writes and no blur.
    ghost bare: { (cell : Cell) (look : List ℕ → Slot) → IsBare (meaning cell look) };
}

/// A run of a cell that is the same in every environment which answers its reads alike.
#[derive(Drop)]
pub struct Record<W: CellMeaning> {
    pub cell: ArcOf<Cell>,
    pub reads: Slots,
    pub result: CellResult,
    work: PhantomData<W>,
}

impl<W: CellMeaning> Model for Record<W> {
    ghost use Rattle.std.specs.Coded.{codes};
    ghost use Rattle.value_types.specs.contracts.row_id.RowId as row_id;
    ghost use Rattle.cell_model.specs.Records.{RecordData, IsValid};

    ghost Value = { RecordData };

    ghost coded = { Prim.hlevel (codes, row_id.the_row.coded) };

    ghost view = { λ r. record { cell = r.cell; reads = r.reads; result = r.result } };

    ghost invariant = { λ r.
        IsValid W.meaning W.names (record { cell = r.cell; reads = r.reads; result = r.result }) };
}

impl<W: CellMeaning> Record<W> {
    /// A record of a run, where it is valid.
    pub fn new(cell: ArcOf<Cell>, reads: Slots, outcome: CellResult) -> Record<W>
        requires { IsValid W.meaning W.names
            (record { cell = cell; reads = reads; result = outcome }) }
        ensures { result ≡ record { cell = cell; reads = reads; result = outcome } }
    {
        Record {
            cell,
            reads,
            result: outcome,
            work: PhantomData,
        }
    }

    /// A record is valid.
    pub fn law_of_validity(&self)
        ensures { IsValid W.meaning W.names self.now }
    {
        let _ = &self.cell;
    }

    pub fn cell(&self) -> &ArcOf<Cell>
        ensures { result.now ≡ self.now.cell }
    {
        &self.cell
    }

    pub fn reads(&self) -> &Slots
        ensures { result.now ≡ self.now.reads }
    {
        &self.reads
    }

    pub fn outcome(&self) -> &CellResult
        ensures { result.now ≡ self.now.result }
    {
        &self.result
    }

    /// The result, where the record is done with.
    pub fn into_outcome(self) -> CellResult
        ensures outcome { result ≡ self.result }
        ensures valid { IsValid W.meaning W.names self }
    {
        self.result
    }

    /// One record more of the same run, which shares the cell.
    pub fn copy(&self, alloc: Global) -> Result<Record<W>, NoMemory>
        ensures { IfOk result (λ r. r ≡ self.now) }
    {
        Ok(Record {
            cell: self.cell.copy(alloc)?,
            reads: self.reads.copy(alloc)?,
            result: self.result.copy(alloc)?,
            work: PhantomData,
        })
    }
}
