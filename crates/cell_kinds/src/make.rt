//! Make cells, which hold a literal dataset.
ghost use Rattle.std.specs.Prelude.{◌≡◌, IfOk};
ghost use Rattle.cell_kinds.specs.Make.{make_result};

use cell_model::{CellResult, CellStatus, Lines, Writes};
use dataset_types::{Slot, Table};
use std::alloc::Global;
use value_types::{ArcOf, Name, NoMemory};

/// The result of a make cell: its table under its name, without doubt.
pub fn make_result(alloc: Global, name: &Name, table: &ArcOf<Table>) -> Result<CellResult, NoMemory>
    ensures { IfOk result (λ r. r ≡ make_result name.now table.now) }
{
    let slot = Slot {
        table: Some(table.copy(alloc)?),
        doubt: false,
    };
    let mut writes = Writes::new(alloc)?;
    writes.push(alloc, name.copy(), slot)?;
    Ok(CellResult {
        status: CellStatus::Ok,
        lines: Lines::new(alloc)?,
        writes,
        blur: false,
    })
}
