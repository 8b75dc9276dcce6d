//! Results of cells that write, or err.
ghost use Rattle.std.specs.Prelude.{◌≡◌};
ghost use Rattle.cell_kinds.specs.Written.{concluded};

use cell_model::{CellResult, CellStatus, Ended, Lines, WorkFault, Writes};
use std::alloc::Global;

/// The result of what a work answered: its writes alone, or its error. An end stays the end.
pub fn result_of(alloc: Global, answer: Result<Writes, WorkFault>) -> Result<CellResult, Ended>
    ensures { result ≡ concluded answer }
{
    match answer {
        Ok(writes) => Ok(CellResult {
            status: CellStatus::Ok,
            lines: Lines::new(alloc)?,
            writes,
            blur: false,
        }),
        Err(WorkFault::Error(error)) => Ok(CellResult::bare(alloc, CellStatus::Error(error))?),
        Err(WorkFault::Ended(ended)) => Err(ended),
    }
}
