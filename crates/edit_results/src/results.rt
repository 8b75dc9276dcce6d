//! Results as datasets.
ghost use Rattle.cell_errors.specs.Answers.{Gives};
ghost use Rattle.dataset_types.specs.Tables.{table_of};
ghost use Rattle.edit_results.specs.Results.{KeepsRules, whole};

use cell_errors::{CellError, EvalFault};
use dataset_types::{Columns, Rows, Table, TableFault};
use std::alloc::Global;
use value_types::ArcOf;

/// The dataset of these parts, to be shared, where it is within the limits.
///
/// - Error: `TooLarge` where it passes one.
/// - Source: docs/FORMATS.md, "Limits".
pub fn whole_table(
    alloc: Global,
    columns: Columns,
    rows: Rows,
    is_open: bool,
    is_loose: bool,
) -> Result<ArcOf<Table>, EvalFault>
    requires { KeepsRules (table_of columns rows is_open is_loose) }
    ensures { Gives result (whole (table_of columns rows is_open is_loose)) }
{
    match Table::new(alloc, columns, rows, is_open, is_loose) {
        Ok(table) => Ok(ArcOf::new(alloc, table)?),
        Err(TableFault::TooLarge) => Err(EvalFault::Error(CellError::TooLarge)),
        Err(TableFault::NoMemory) => Err(EvalFault::NoMemory),
    }
}
