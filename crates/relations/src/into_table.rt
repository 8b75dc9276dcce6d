//! Datasets of whole relations.
ghost use Rattle.std.specs.Prelude.{◌≡◌, IfOk};
ghost use Rattle.cell_errors.specs.Answers.{Gives};
ghost use Rattle.dataset_types.specs.Tables.{Distinct, column_names};
ghost use Rattle.relations.specs.Rels.{bare_columns, rel_table};

use crate::parts::RelParts;
use crate::rel::Rel;
use cell_errors::{CellError, EvalFault};
use dataset_types::{Columns, Table, TableFault};
use expr_meaning::{Scope, ScopeColumn};
use std::alloc::Global;
use value_types::NoMemory;

fn bare_columns(alloc: Global, columns: Scope) -> Result<Columns, NoMemory>
    ensures { IfOk result (λ c. c ≡ bare_columns columns) }
{
    let mut all = Columns::new(alloc)?;
    for one in columns.into_vec() {
        let ScopeColumn { column, .. } = one;
        all.push(alloc, column)?;
    }
    Ok(all)
}

impl Rel {
    /// The dataset of a relation, its columns without their qualifiers.
    ///
    /// - Error: `TooLarge` exactly where it has more than 32 columns; every other limit a relation keeps.
    pub fn into_table(self, alloc: Global) -> Result<Table, EvalFault>
        requires names { Distinct (column_names (bare_columns self.columns)) }
        ensures { Gives result (rel_table self) }
    {
        let RelParts {
            columns,
            rows,
            is_open,
            is_loose,
        } = self.into_parts();
        let columns = bare_columns(alloc, columns)?;
        match Table::new(alloc, columns, rows, is_open, is_loose) {
            Ok(table) => Ok(table),
            Err(TableFault::TooLarge) => Err(EvalFault::Error(CellError::TooLarge)),
            Err(TableFault::NoMemory) => Err(EvalFault::NoMemory),
        }
    }
}
