//! Commands on whole datasets, which share them.
ghost use Rattle.std.specs.Prelude.{◌≡◌, Ok, [], ◌∷◌, None, false};
ghost use Rattle.cell_errors.specs.Answers.{and_then};
ghost use Rattle.cell_model.specs.Works.{Works, KeepsSource};
ghost use Rattle.vizual_edits.specs.Commands.{filled, gone, there, there_alone, both_names};

use crate::editing::fill;
use crate::reading::{read_alone, read_there};
use cell_model::{Reads, WorkFault, Writes};
use dataset_types::Slot;
use std::alloc::Global;
use value_types::Name;

/// No dataset, without doubt.
fn absent() -> Slot
    ensures { result ≡ record { table = None; doubt = false } }
{
    Slot {
        table: None,
        doubt: false,
    }
}

/// The dataset under another name, and no longer under its own.
pub(crate) fn rename_dataset<R: Reads>(
    alloc: Global,
    name: &Name,
    to: &Name,
    reads: &mut R,
) -> Result<Writes, WorkFault>
    requires fresh { R.asked reads.old ≡ [] }
    requires going { R.ended reads.old ≡ None }
    ensures works { Works (λ look. and_then (there_alone name.now to.now look)
        (λ s. Ok (filled to.now s.table s.doubt ∷ gone name.now ∷ [])))
        (both_names name.now to.now) result (R.asked reads.new) (R.ended reads.new) }
    ensures source { KeepsSource (R.source reads.old) (R.source reads.new) (R.asked reads.new) }
{
    let there = read_alone(alloc, name, to, reads)?;
    let mut writes = fill(alloc, to, there.table, there.doubt)?;
    writes.push(alloc, name.copy(), absent())?;
    Ok(writes)
}

/// The dataset under another name too.
pub(crate) fn copy_dataset<R: Reads>(
    alloc: Global,
    name: &Name,
    to: &Name,
    reads: &mut R,
) -> Result<Writes, WorkFault>
    requires fresh { R.asked reads.old ≡ [] }
    requires going { R.ended reads.old ≡ None }
    ensures works { Works (λ look. and_then (there_alone name.now to.now look)
        (λ s. Ok (filled to.now s.table s.doubt ∷ [])))
        (both_names name.now to.now) result (R.asked reads.new) (R.ended reads.new) }
    ensures source { KeepsSource (R.source reads.old) (R.source reads.new) (R.asked reads.new) }
{
    let there = read_alone(alloc, name, to, reads)?;
    Ok(fill(alloc, to, there.table, there.doubt)?)
}

/// No dataset under the name.
pub(crate) fn drop_dataset<R: Reads>(
    alloc: Global,
    name: &Name,
    reads: &mut R,
) -> Result<Writes, WorkFault>
    requires fresh { R.asked reads.old ≡ [] }
    requires going { R.ended reads.old ≡ None }
    ensures works { Works (λ look. and_then (there (look name.now)) (λ s. Ok (gone name.now ∷ [])))
        (λ _. name.now ∷ []) result (R.asked reads.new) (R.ended reads.new) }
    ensures source { KeepsSource (R.source reads.old) (R.source reads.new) (R.asked reads.new) }
{
    let _there = read_there(alloc, name, reads)?;
    let mut writes = Writes::new(alloc)?;
    writes.push(alloc, name.copy(), absent())?;
    Ok(writes)
}
