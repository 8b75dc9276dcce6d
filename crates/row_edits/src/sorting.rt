//! `sort`.
ghost use Rattle.std.specs.Prelude.{◌≤◌, ◌↔◌, IsTrue, length};
ghost use Rattle.cell_errors.specs.Answers.{Gives};
ghost use Rattle.row_edits.specs.Sort as spec;
ghost use Rattle.row_edits.specs.Sort.{rows_sorted};
ghost use Rattle.row_edits.specs.Staying.{IsInOrder};

use crate::columns::find_column;
use cell_errors::EvalFault;
use dataset_types::{Column, Table};
use rel_ops::{any_marked_key, is_sorted, sort as sort_rel};
use relations::{Rel, SortKey, SortKeys};
use sheet_commands::{SortName, SortNames};
use std::alloc::Global;
use value_types::ArcOf;

fn sort_key(columns: &[Column], by: &SortName) -> Result<SortKey, EvalFault>
    requires { length columns.now ≤ 32 }
    ensures { Gives result (spec.sort_key columns.now by.now) }
{
    let found = find_column(columns, &by.name)?;
    Ok(SortKey {
        column: found.place as u32 + 1,
        descending: by.descending,
    })
}

#[tactic(auto, using(relations::proofs::Collecting::collecting))]
fn sort_keys(alloc: Global, columns: &[Column], by: &[SortName]) -> Result<SortKeys, EvalFault>
    requires { length columns.now ≤ 32 }
    ensures { Gives result (spec.sort_keys columns.now by.now) }
{
    let mut keys = SortKeys::new(alloc)?;
    for one in by {
        keys.push(alloc, sort_key(columns, one)?)?;
    }
    Ok(keys)
}

// A dataset in order by the keys of its columns.
fn put_in_order(alloc: Global, table: &Table, keys: &SortKeys) -> Result<ArcOf<Table>, EvalFault>
    ensures { Gives result (spec.put_in_order table.now keys.now) }
{
    table.law_of_rules();
    let rel = Rel::of_table(alloc, table, &None)?;
    let sorted = sort_rel(alloc, rel, keys)?.into_table(alloc)?;
    Ok(ArcOf::new(alloc, sorted)?)
}

// Whether that leaves it as it is.
fn is_in_order(table: &Table, keys: &[SortKey]) -> bool
    ensures { IsTrue result ↔ IsInOrder table.now keys.now }
{
    let rows = table.rows().as_slice();
    is_sorted(keys, rows) && (table.is_loose() || !any_marked_key(keys, rows))
}

/// A dataset with its rows in the order of named columns, as ORDER BY gives it.
///
/// - Shape: where the rows are in that order and no flag changes, the dataset is the same one, shared once more.
/// - Marks: loose where it was, or where a sure row is placed by a marked value.
/// - Error: `NoColumn` where a named column isn't there.
/// - Source: docs/EDITING.md; docs/SELECT.md.
pub fn sort(alloc: Global, table: &ArcOf<Table>, by: &SortNames) -> Result<ArcOf<Table>, EvalFault>
    ensures { Gives result (rows_sorted table.now by.now) }
{
    let own = table.get();
    own.law_of_rules();
    let keys = sort_keys(alloc, own.columns().as_slice(), by.as_slice())?;
    if is_in_order(own, keys.as_slice()) {
        return Ok(table.copy(alloc)?);
    }
    put_in_order(alloc, own, &keys)
}
