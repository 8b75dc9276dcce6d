//! The commands that put in, take out, rename, move and choose columns.
//!
//! Each makes a layout of the columns, and writes the table under it. Row ids, their order, marks and flags stay. The commands that
//! may leave the table as it was take it shared, and then give back the same one.
ghost use Rattle.cell_errors.specs.Answers.{Gives};
ghost use Rattle.dataset_types.specs.Tables.{Distinct};
ghost use Rattle.column_edits.specs.Plans as plan;
ghost use Rattle.column_edits.specs.Changes.{changed};

use crate::plans::{deletion, insertion, keeping, moving, renaming};
use crate::result::{lay_out, lay_out_shared};
use cell_errors::EvalFault;
use dataset_types::Table;
use std::alloc::Global;
use value_types::{ArcOf, ColumnType, Name, Names};

/// A column of unmarked NULLs before place `at`, or last for one more than there are columns.
///
/// - Unit: `at` counts from 1.
/// - Error: `NoColumn` where `at` is out of range; then `NameTaken` where a column has the name; then `TooLarge` where
///   the result passes a limit.
/// - Source: docs/EDITING.md.
pub fn insert_column(
    alloc: Global,
    table: &Table,
    name: &Name,
    kind: ColumnType,
    at: u32,
) -> Result<ArcOf<Table>, EvalFault>
    ensures { Gives result (changed (plan.insertion name.now kind at) table.now) }
{
    table.law_of_rules();
    let layout = insertion(alloc, name, kind, at, table.columns().as_slice())?;
    lay_out(alloc, table, &layout)
}

/// The table without a column. The last column may go too.
///
/// - Error: `NoColumn` where no column has the name.
/// - Source: docs/EDITING.md.
pub fn delete_column(alloc: Global, table: &Table, name: &Name) -> Result<ArcOf<Table>, EvalFault>
    ensures { Gives result (changed (plan.deletion name.now) table.now) }
{
    table.law_of_rules();
    let layout = deletion(alloc, name, table.columns().as_slice())?;
    lay_out(alloc, table, &layout)
}

/// A column under another name. Under its own name the table is the same one.
///
/// - Error: `NoColumn` where no column has the name; then `NameTaken` where another column is called `to`.
/// - Source: docs/EDITING.md.
pub fn rename_column(
    alloc: Global,
    table: &ArcOf<Table>,
    name: &Name,
    to: &Name,
) -> Result<ArcOf<Table>, EvalFault>
    ensures { Gives result (changed (plan.renaming name.now to.now) table.now) }
{
    let own = table.get();
    own.law_of_rules();
    let layout = renaming(alloc, name, to, own.columns().as_slice())?;
    lay_out_shared(alloc, table, &layout)
}

/// A column at another place. At its own place the table is the same one.
///
/// - Unit: `at` counts from 1, among the columns as they then are.
/// - Error: `NoColumn` where no column has the name or `at` is out of range.
/// - Source: docs/EDITING.md.
pub fn move_column(
    alloc: Global,
    table: &ArcOf<Table>,
    name: &Name,
    at: u32,
) -> Result<ArcOf<Table>, EvalFault>
    ensures { Gives result (changed (plan.moving name.now at) table.now) }
{
    let own = table.get();
    own.law_of_rules();
    let layout = moving(alloc, name, at, own.columns().as_slice())?;
    lay_out_shared(alloc, table, &layout)
}

/// The columns of these names alone, in the order of the names. Where these are all in their order, the table is the same one.
///
/// - Error: `NoColumn` where no column has one of the names.
/// - Source: docs/EDITING.md.
pub fn keep_columns(
    alloc: Global,
    table: &ArcOf<Table>,
    names: &Names,
) -> Result<ArcOf<Table>, EvalFault>
    requires distinct { Distinct names.now }
    ensures { Gives result (changed (plan.keeping names.now) table.now) }
{
    let own = table.get();
    own.law_of_rules();
    let layout = keeping(alloc, names.as_slice(), own.columns().as_slice())?;
    lay_out_shared(alloc, table, &layout)
}
