//! The table that a command gives.
ghost use Rattle.cell_errors.specs.Answers.{Gives};
ghost use Rattle.edit_results.specs.Results.{whole};
ghost use Rattle.column_edits.specs.Changes.{laid_out};
ghost use Rattle.column_edits.specs.Rules.{IsLayout};

use crate::layout::{Layout, columns_of, is_standing, laid_rows};
use cell_errors::EvalFault;
use dataset_types::Table;
use edit_results::whole_table;
use std::alloc::Global;
use value_types::ArcOf;

/// A table under a layout, with NULL in the columns without a source.
pub(crate) fn lay_out(
    alloc: Global,
    table: &Table,
    layout: &Layout,
) -> Result<ArcOf<Table>, EvalFault>
    requires { IsLayout table.now.columns layout.now }
    ensures { Gives result (whole (laid_out layout.now table.now)) }
{
    table.law_of_rules();
    let columns = columns_of(alloc, layout.as_slice())?;
    let rows = laid_rows(alloc, layout.as_slice(), table.rows().as_slice())?;
    whole_table(alloc, columns, rows, table.is_open(), table.is_loose())
}

/// A shared table under a layout: the same one, shared once more, where the layout leaves its columns as they stand.
pub(crate) fn lay_out_shared(
    alloc: Global,
    table: &ArcOf<Table>,
    layout: &Layout,
) -> Result<ArcOf<Table>, EvalFault>
    requires { IsLayout table.now.columns layout.now }
    ensures { Gives result (whole (laid_out layout.now table.now)) }
{
    let own = table.get();
    own.law_of_rules();
    if is_standing(alloc, layout, own.columns().as_slice())? {
        return Ok(table.copy(alloc)?);
    }
    lay_out(alloc, own, layout)
}
