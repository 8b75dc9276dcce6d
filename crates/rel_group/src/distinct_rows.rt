//! DISTINCT.
ghost use Rattle.std.specs.Prelude.{◌≡◌, IfOk, map};
ghost use Rattle.cell_errors.specs.Answers.{Gives};
ghost use Rattle.rel_group.specs.Group as spec;
ghost use Rattle.rel_group.specs.Calls.{key_lot};

use crate::cutting::keyed_lots;
use crate::having::certain_values;
use crate::parts::{Lot, Lots};
use crate::uncertain::is_uncertain;
use cell_errors::EvalFault;
use dataset_types::{Row, Rows};
use relations::Rel;
use std::alloc::Global;
use value_types::{NoMemory, RowId};

fn key_row(alloc: Global, lot: Lot) -> Result<Row, NoMemory>
    ensures { IfOk result (λ r. r ≡ key_lot lot) }
{
    let Lot { key, sure, .. } = lot;
    let id = RowId::Key(key.copy(alloc)?);
    Ok(Row {
        id,
        sure,
        values: certain_values(alloc, key)?,
    })
}

fn key_rows(alloc: Global, lots: Lots) -> Result<Rows, NoMemory>
    ensures { IfOk result (λ rows. rows ≡ map key_lot lots) }
{
    let mut all = Rows::new(alloc)?;
    for lot in lots.into_vec() {
        all.push(alloc, key_row(alloc, lot)?)?;
    }
    Ok(all)
}

/// DISTINCT: a row for each list of values that a row has, in ascending order, with these values as its id.
///
/// - Shape: the columns stay.
/// - Marks: a row is sure where a sure row whose values are all unmarked has its values; no value is marked. Open where the
///   relation is or a value is marked; never loose.
/// - Error: `TooLarge` where the whole result passes a limit.
/// - Source: docs/SELECT.md.
#[tactic(auto, using(crate::proofs::Lots::distinct_rows))]
pub fn distinct(alloc: Global, rel: &Rel) -> Result<Rel, EvalFault>
    ensures { Gives result (spec.distinct rel.now) }
{
    rel.law_of_rules();
    let lots = keyed_lots(alloc, None, rel.rows().as_slice())?;
    let rows = key_rows(alloc, lots)?;
    let columns = rel.columns().copy(alloc)?;
    Rel::new(alloc, columns, rows, is_uncertain(None, rel), false)
}
