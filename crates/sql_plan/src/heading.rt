//! The columns of datasets.
ghost use Rattle.std.specs.Prelude.{◌≡◌, ◌++◌, Some, OnOk, map};
ghost use Rattle.relations.specs.Rels.{qualified};
ghost use Rattle.sql_plan.specs.Headings.{table_columns};

use dataset_types::{Column, Columns};
use expr_meaning::Scope;
use relations::qualified_columns;
use sql_parse::TableRef;
use std::alloc::Global;
use value_types::{ListOf, Name, NoMemory};

/// A dataset's name and its columns.
#[derive(Drop)]
pub struct Heading {
    pub dataset: Name,
    pub columns: Columns,
}

/// Datasets, of which the first of a name counts.
pub type Headings = ListOf<Heading>;

fn push_qualified(
    alloc: Global,
    all: &mut Scope,
    columns: &[Column],
    qualifier: &Name,
) -> Result<(), NoMemory>
    ensures { OnOk result (all.new ≡ all.old ++ map (qualified (Some qualifier.now)) columns.now) }
{
    let columns = qualified_columns(alloc, columns, &Some(qualifier.copy()))?;
    all.append(alloc, columns)?;
    Ok(())
}

/// The columns of a table put after what is there, under its qualifier.
#[tactic(auto, using(crate::proofs::Heads::heads))]
pub(crate) fn push_table(
    alloc: Global,
    all: &mut Scope,
    headings: &[Heading],
    table: &TableRef,
) -> Result<(), NoMemory>
    ensures { OnOk result (all.new ≡ all.old ++ table_columns headings.now table.now) }
{
    for heading in headings {
        if heading.dataset.same(&table.dataset) {
            return push_qualified(alloc, all, heading.columns.as_slice(), &table.qualifier);
        }
    }
    Ok(())
}
