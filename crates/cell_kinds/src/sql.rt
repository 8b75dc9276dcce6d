//! SELECT cells, which make a dataset of others.
ghost use Rattle.std.specs.Prelude.{◌≡◌, [], None};
ghost use Rattle.cell_model.specs.Works.{Works, KeepsSource};
ghost use Rattle.cell_kinds.specs.Sql as spec;
ghost use Rattle.cell_kinds.specs.Written.{written, IsResult};

use crate::written::result_of;
use cell_model::{CellResult, Ended, Reads, WorkFault, Writes};
use dataset_types::Picks;
use sql_meaning::run_select;
use std::alloc::Global;
use text_answers::parsed_select;
use value_types::{Name, Words};

// What the SELECT of a text gives, under a name. The text is read before any dataset is.
fn sql_writes<R: Reads>(
    alloc: Global,
    id: u32,
    picks: &Picks,
    text: &Words,
    into: &Name,
    reads: &mut R,
) -> Result<Writes, WorkFault>
    requires fresh { R.asked reads.old ≡ [] }
    requires going { R.ended reads.old ≡ None }
    ensures works { Works (spec.sql_writes id picks.now text.now into.now)
        (spec.sql_names text.now) result (R.asked reads.new) (R.ended reads.new) }
    ensures source { KeepsSource (R.source reads.old) (R.source reads.new) (R.asked reads.new) }
{
    let select = parsed_select(alloc, text)?;
    let slot = run_select(alloc, &select, id, picks, reads)?;
    let mut writes = Writes::new(alloc)?;
    writes.push(alloc, into.copy(), slot)?;
    Ok(writes)
}

/// The result of a SELECT cell with an id: the dataset under its name, or its error.
#[tactic(auto, using(crate::proofs::Concluding::concluded_is))]
pub fn sql_result<R: Reads>(
    alloc: Global,
    id: u32,
    picks: &Picks,
    text: &Words,
    into: &Name,
    reads: &mut R,
) -> Result<CellResult, Ended>
    requires fresh { R.asked reads.old ≡ [] }
    requires going { R.ended reads.old ≡ None }
    ensures works { IsResult (λ look. written (spec.sql_writes id picks.now text.now into.now look))
        (spec.sql_names text.now) result (R.asked reads.new) (R.ended reads.new) }
    ensures source { KeepsSource (R.source reads.old) (R.source reads.new) (R.asked reads.new) }
{
    let answer = sql_writes(alloc, id, picks, text, into, reads);
    result_of(alloc, answer)
}
