//! The datasets that a command reads.
ghost use Rattle.std.specs.Prelude.{◌≡◌, [], ◌∷◌, None, false, IfOk, OnOk};
ghost use Rattle.std.specs.Str.{bytes_eq};
ghost use Rattle.cell_model.specs.Works.{Works, KeepsSource};
ghost use Rattle.vizual_edits.specs.Commands.{filled, there, there_alone, both_names};

use cell_errors::CellError;
use cell_model::{Reads, WorkFault};
use dataset_types::{Slot, Table};
use std::alloc::Global;
use value_types::{ArcOf, Name};

/// A dataset that was read, and whether its name was in doubt.
#[derive(Drop)]
pub struct There {
    pub table: ArcOf<Table>,
    pub doubt: bool,
}

/// The dataset of a name.
pub(crate) fn read_there<R: Reads>(
    alloc: Global,
    name: &Name,
    reads: &mut R,
) -> Result<There, WorkFault>
    requires fresh { R.asked reads.old ≡ [] }
    requires going { R.ended reads.old ≡ None }
    ensures works { Works (λ look. there (look name.now)) (λ _. name.now ∷ [])
        result (R.asked reads.new) (R.ended reads.new) }
    ensures source { KeepsSource (R.source reads.old) (R.source reads.new) (R.asked reads.new) }
    ensures asked { IfOk result (λ s.
        R.asked reads.new ≡ filled name.now s.table s.doubt ∷ []) }
{
    let Slot { table, doubt } = reads.read(alloc, name)?;
    match table {
        Some(table) => Ok(There { table, doubt }),
        None => Err(WorkFault::Error(CellError::NoDataset)),
    }
}

/// The dataset of a name, where another name has none.
pub(crate) fn read_alone<R: Reads>(
    alloc: Global,
    name: &Name,
    to: &Name,
    reads: &mut R,
) -> Result<There, WorkFault>
    requires fresh { R.asked reads.old ≡ [] }
    requires going { R.ended reads.old ≡ None }
    ensures works { Works (there_alone name.now to.now) (both_names name.now to.now)
        result (R.asked reads.new) (R.ended reads.new) }
    ensures source { KeepsSource (R.source reads.old) (R.source reads.new) (R.asked reads.new) }
    ensures apart { OnOk result (bytes_eq name.now to.now ≡ false) }
{
    let there = read_there(alloc, name, reads)?;
    if name.same(to) {
        return Err(WorkFault::Error(CellError::NameTaken));
    }
    let other = reads.read(alloc, to)?;
    if other.table.is_some() {
        return Err(WorkFault::Error(CellError::NameTaken));
    }
    Ok(there)
}
