//! Relations of whole datasets.
ghost use Rattle.std.specs.Prelude.{◌≡◌, IfOk, map};
ghost use Rattle.relations.specs.Rels.{qualified, table_rel};

use crate::rel::Rel;
use dataset_types::{Column, Table};
use expr_meaning::{Scope, ScopeColumn};
use std::alloc::Global;
use value_types::{Name, NoMemory};

/// The columns of a dataset under a qualifier.
pub fn qualified_columns(
    alloc: Global,
    columns: &[Column],
    qualifier: &Option<Name>,
) -> Result<Scope, NoMemory>
    ensures { IfOk result (λ c. c ≡ map (qualified qualifier.now) columns.now) }
{
    let mut all = Scope::new(alloc)?;
    for column in columns {
        let one = qualified(alloc, column, qualifier)?;
        all.push(alloc, one)?;
    }
    Ok(all)
}

fn qualified(
    alloc: Global,
    column: &Column,
    qualifier: &Option<Name>,
) -> Result<ScopeColumn, NoMemory>
    ensures { IfOk result (λ c. c ≡ qualified qualifier.now column.now) }
{
    Ok(ScopeColumn {
        qualifier: match qualifier {
            None => None,
            Some(name) => Some(name.copy()),
        },
        column: column.copy(alloc)?,
    })
}

impl Rel {
    /// A copy of a dataset, its columns under a qualifier.
    pub fn of_table(alloc: Global, table: &Table, qualifier: &Option<Name>) -> Result<Rel, NoMemory>
        ensures { IfOk result (λ r. r ≡ table_rel qualifier.now table.now) }
    {
        table.law_of_rules();
        let columns = qualified_columns(alloc, table.columns().as_slice(), qualifier)?;
        let rows = table.rows().copy(alloc)?;
        Ok(Rel {
            columns,
            rows,
            is_open: table.is_open(),
            is_loose: table.is_loose(),
        })
    }
}
