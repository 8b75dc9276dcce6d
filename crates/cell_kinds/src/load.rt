//! Load cells, which read a CSV file.
ghost use Rattle.std.specs.Prelude.{◌≡◌, IfOk};
ghost use Rattle.csv_load.specs.Load.{load_of};
ghost use Rattle.cell_kinds.specs.Load.{load_result};

use crate::make::make_result;
use cell_errors::EvalFault;
use cell_model::{CellResult, CellStatus};
use csv_load::load;
use dataset_types::{Picks, Repair, Types};
use std::alloc::Global;
use value_types::{ArcOf, Name, NoMemory};

/// The result of a load cell with an id: the file's table under its name, without doubt, or its error.
pub fn load_result(
    alloc: Global,
    id: u32,
    picks: &Picks,
    name: &Name,
    bytes: &[u8],
    types: &Types,
    repair: Repair,
) -> Result<CellResult, NoMemory>
    ensures { IfOk result (λ r.
        r ≡ load_result name.now (load_of bytes.now types.now repair picks.now id)) }
{
    match load(alloc, bytes, types, repair, picks, id) {
        Ok(table) => make_result(alloc, name, &ArcOf::new(alloc, table)?),
        Err(EvalFault::Error(error)) => CellResult::bare(alloc, CellStatus::Error(error)),
        Err(EvalFault::NoMemory) => Err(NoMemory),
    }
}
