//! The datasets that a SELECT names are read before anything else.
ghost use Rattle.std.specs.Prelude.{◌≡◌, [], None};
ghost use Rattle.dataset_types.specs.Tables.{Distinct};
ghost use Rattle.cell_model.specs.Works.{Works, KeepsSource};
ghost use Rattle.sql_meaning.specs.Inputs.{input_if, inputs_in, names_read};

use crate::input::{Input, Inputs};
use cell_errors::CellError;
use cell_model::{Reads, WorkFault};
use dataset_types::Slot;
use std::alloc::Global;
use value_types::Name;

fn input_of(name: &Name, slot: Slot) -> Result<Input, CellError>
    ensures { result ≡ input_if name.now slot.doubt slot.table }
{
    let Slot { table, doubt } = slot;
    match table {
        None => Err(CellError::NoDataset),
        Some(table) => Ok(Input {
            name: name.copy(),
            table,
            doubt,
        }),
    }
}

/// The datasets of these names, in order.
///
/// - Error: `NoDataset` at the first that is absent; no name after it is read.
pub(crate) fn read_inputs<R: Reads>(
    alloc: Global,
    names: &[Name],
    reads: &mut R,
) -> Result<Inputs, WorkFault>
    requires once { Distinct names.now }
    requires fresh { R.asked reads.old ≡ [] }
    requires going { R.ended reads.old ≡ None }
    ensures works { Works (λ look. inputs_in look names.now) (λ look. names_read look names.now)
        result (R.asked reads.new) (R.ended reads.new) }
    ensures source { KeepsSource (R.source reads.old) (R.source reads.new) (R.asked reads.new) }
{
    let mut inputs = Inputs::new(alloc)?;
    for name in names {
        let slot = reads.read(alloc, name)?;
        let input = input_of(name, slot)?;
        inputs.push(alloc, input)?;
    }
    Ok(inputs)
}
