//! Spreadsheet cells, which change a dataset.
ghost use Rattle.std.specs.Prelude.{◌≡◌, [], None};
ghost use Rattle.cell_model.specs.Works.{KeepsSource};
ghost use Rattle.vizual_edits.specs.Commands.{applied, names_read};
ghost use Rattle.cell_kinds.specs.Written.{written, IsResult};

use crate::written::result_of;
use cell_model::{CellResult, Ended, Reads};
use dataset_types::Picks;
use sheet_commands::Command;
use std::alloc::Global;
use vizual_edits::apply;

/// The result of a spreadsheet cell with an id: what its command writes, or its error.
#[tactic(auto, using(crate::proofs::Concluding::concluded_is))]
pub fn vizual_result<R: Reads>(
    alloc: Global,
    id: u32,
    picks: &Picks,
    command: &Command,
    reads: &mut R,
) -> Result<CellResult, Ended>
    requires fresh { R.asked reads.old ≡ [] }
    requires going { R.ended reads.old ≡ None }
    ensures works { IsResult (λ look. written (applied command.now id picks.now look))
        (names_read command.now) result (R.asked reads.new) (R.ended reads.new) }
    ensures source { KeepsSource (R.source reads.old) (R.source reads.new) (R.asked reads.new) }
{
    let answer = apply(alloc, command, id, picks, reads);
    result_of(alloc, answer)
}
