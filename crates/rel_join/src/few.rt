//! Rows that are kept while they are few.
//!
//! A join may make far more than any result may have. Where its rows become too many, or their text too long, all are
//! given up and no more are kept, for what comes after too much is too much.
ghost use Rattle.std.specs.Prelude.{◌≡◌, ◌-◌, ◌^◌, ◌&&◌, min, true, Ok, OnOk, IfSome, IsTrue, Some, []};
ghost use Rattle.dataset_types.specs.Tables.{few_rows, few_bytes};
ghost use Rattle.relations.specs.Batches.{nothing};
ghost use Rattle.relations.specs.Conditions.{kept};
ghost use Rattle.rel_join.specs.Few.{are_few, both_few};

use dataset_types::{Row, few_bytes, few_rows, row_size};
use relations::{Batch, Test};
use std::alloc::Global;
use std::marker::Model;
use value_types::NoMemory;

/// Whether so many rows with so many bytes of text are few.
fn are_few(rows: usize, bytes: u64) -> bool
    ensures { result ≡ few_rows rows && few_bytes bytes }
{
    few_rows(rows) && few_bytes(bytes)
}

/// A batch while its rows are few, and nothing from there on.
#[derive(Drop)]
pub struct Few {
    kept: Option<Batch>,
    /// The bytes of text in what is kept.
    bytes: u64,
}

impl Model for Few {
    ghost use Rattle.std.specs.Prelude.{Option};
    ghost use Rattle.std.specs.Coded.{codes};
    ghost use Rattle.value_types.specs.contracts.row_id.RowId as row_id;
    ghost use Rattle.relations.specs.declared.batch.Batch.{Batch};
    ghost use Rattle.rel_join.specs.Few.{AreCounted};

    ghost Value = { Option Batch };

    ghost coded = { Prim.hlevel (codes, row_id.the_row.coded) };

    ghost view = { λ f. f.kept };

    ghost invariant = { λ f. AreCounted f.kept f.bytes };
}

impl Few {
    /// No rows.
    pub fn new(alloc: Global) -> Result<Few, NoMemory>
        ensures { result ≡ Ok (Some nothing) }
    {
        Ok(Few {
            kept: Some(Batch::new(alloc)?),
            bytes: 0,
        })
    }

    /// What is kept is few.
    pub fn law_of_few(&self)
        ensures { IfSome self.now (λ m. IsTrue (are_few m.rows)) }
    {
        let _bytes = self.bytes;
    }

    /// What is kept.
    pub fn batch(&self) -> &Option<Batch>
        ensures { result.now ≡ self.now }
    {
        &self.kept
    }

    /// What is kept, where this is done with.
    pub fn into_batch(self) -> Option<Batch>
        ensures { result ≡ self }
    {
        self.kept
    }

    /// The mark of a test that doesn't hold.
    pub fn mark(&mut self, marked: bool)
        ensures { self.new ≡ both_few self.old (Some (record { rows = []; marked = marked })) }
    {
        if let Some(batch) = &mut self.kept {
            batch.marked |= marked;
        }
    }

    /// A row whose test holds, put after its own. `marked` is whether the test is marked.
    pub fn push(&mut self, alloc: Global, row: Row, marked: bool) -> Result<(), NoMemory>
        ensures { OnOk result (self.new
            ≡ both_few self.old (Some (kept row (record { holds = true; marked = marked })))) }
    {
        let bytes = self.bytes.saturating_add(row_size(&row));
        if let Some(mut batch) = self.kept.take() {
            if are_few(batch.rows.len() + 1, bytes) {
                let holds = true;
                batch.keep(alloc, row, Test { holds, marked })?;
                *self = Few {
                    kept: Some(batch),
                    bytes,
                };
            }
        }
        Ok(())
    }

    /// The rows of another after its own.
    pub fn add(&mut self, alloc: Global, more: Few) -> Result<(), NoMemory>
        ensures { OnOk result (self.new ≡ both_few self.old more) }
    {
        let bytes = self.bytes.saturating_add(more.bytes);
        let all = self.kept.take();
        if let (Some(mut batch), Some(others)) = (all, more.kept) {
            if are_few(batch.rows.len() + others.rows.len(), bytes) {
                batch.add(alloc, others)?;
                *self = Few {
                    kept: Some(batch),
                    bytes,
                };
            }
        }
        Ok(())
    }
}
