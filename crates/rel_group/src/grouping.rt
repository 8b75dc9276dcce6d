//! GROUP BY, HAVING and the items over groups.
ghost use Rattle.std.specs.Prelude.{◌≡◌, IsTrue, Ok};
ghost use Rattle.std.specs.Option.{option_copied};
ghost use Rattle.cell_errors.specs.Answers.{Gives};
ghost use Rattle.dataset_types.specs.Tables.{Distinct};
ghost use Rattle.rel_ops.specs.Project.{item_names};
ghost use Rattle.rel_group.specs.Group as spec;
ghost use Rattle.rel_group.specs.Groups as groups;
ghost use Rattle.rel_group.specs.Keys.{are_places};
ghost use Rattle.rel_group.specs.Calls.{IsOf, HasColumnPlaces, columns_in, grouped_in, lots_within, rows_within};

use crate::columns::key_columns;
use crate::cutting::lots;
use crate::having::all_tested;
use crate::items::{all_rows, check_rows, kept_count};
use crate::job::Job;
use crate::parts::Lots;
use crate::uncertain::is_uncertain;
use cell_errors::{CellError, EvalFault};
use dataset_types::{Picks, few_values};
use expr_lang::Expr;
use expr_meaning::{Scope, TypedSetting};
use rel_ops::item_columns;
use relations::{Batch, ColumnPlaces, ColumnRefs, Item, Items, Rel};
use std::alloc::Global;

/// The rows of the groups. Where their values would be too many, none of them is kept.
fn group_rows(
    alloc: Global,
    having: Option<&Expr>,
    items: &[Item],
    job: Job,
    lots: Lots,
) -> Result<Batch, EvalFault>
    requires places { HasColumnPlaces job }
    ensures { Gives result
        (lots_within job.entry (option_copied having.entry) items.now lots) }
{
    let tested = all_tested(alloc, having, lots, &job)?;
    let tested = tested.as_slice();
    if !few_values(kept_count(tested), items.len()) {
        check_rows(alloc, items, tested, &job)?;
        return Err(EvalFault::Error(CellError::TooLarge));
    }
    all_rows(alloc, items, tested, &job)
}

fn rows_of(
    alloc: Global,
    having: Option<&Expr>,
    items: &[Item],
    job: Job,
) -> Result<Batch, EvalFault>
    requires job { IsOf job }
    ensures { Gives result (rows_within job.entry (option_copied having.entry) items.now) }
{
    let lots = lots(alloc, job.places, job.rel.rows().as_slice())?;
    group_rows(alloc, having, items, job, lots)
}

fn may_lack_groups(places: &[u32], rel: &Rel) -> bool
    ensures { result ≡ groups.may_lack_groups places.now rel.now }
{
    if places.is_empty() {
        false
    } else {
        is_uncertain(Some(places), rel)
    }
}

/// GROUP BY, HAVING and the items: a row for each group that HAVING keeps, in ascending order of key.
///
/// - Shape: `keys` are places of columns, counted from 1; where there are none, all rows are one group, which is there even
///   without rows. A row's id is the group's key. Names stand for the columns of the key, and in an aggregate for all columns.
///   The output columns have the items' names, no qualifier, and the items' types; one that is NULL alone is Text.
/// - Marks: a group's row is sure where a sure row with an unmarked key is in it and HAVING is unmarked; the result is open
///   where the relation is, a row's key is marked or HAVING of any group is. The group without keys is sure, and leaves the
///   result closed. An aggregate is marked where the relation is open or a row's key is marked. Never loose.
/// - Error: the first of the items' types; then the first of HAVING, in the order of groups; then the first of a value, in the
///   order of groups and in each of items; then `TooLarge` where the whole result passes a limit.
/// - Source: docs/SELECT.md.
pub fn group(
    alloc: Global,
    rel: &Rel,
    keys: &ColumnRefs,
    having: Option<&Expr>,
    items: &Items,
    picks: &Picks,
    cell: u32,
) -> Result<Rel, EvalFault>
    requires names { Distinct (item_names items.now) }
    requires places { IsTrue (are_places rel.now.columns keys.now) }
    ensures { Gives result
        (spec.grouped rel.now keys.now (option_copied having.entry) items.now picks.now cell) }
{
    let places = keys.as_slice();
    let of_key = key_columns(alloc, rel.columns(), places)?;
    let types = TypedSetting {
        columns: &of_key,
        group: Some(rel.columns()),
    };
    let columns = item_columns(alloc, &types, items.as_slice())?;
    let column_places = ColumnPlaces::new(alloc, rel.columns().as_slice())?;
    let job = Job {
        rel,
        column_places: &column_places,
        columns: &of_key,
        places,
        uncertain: is_uncertain(Some(places), rel),
        picks,
        cell,
    };
    group_to(alloc, columns, having, items, job)
}

/// The rows of the groups under the output columns.
fn group_to(
    alloc: Global,
    columns: Scope,
    having: Option<&Expr>,
    items: &Items,
    job: Job,
) -> Result<Rel, EvalFault>
    requires names { Distinct (item_names items.now) }
    requires columns { columns_in job items.now ≡ Ok columns }
    requires job { IsOf job }
    ensures { Gives result
        (grouped_in job.entry columns (option_copied having.entry) items.now) }
{
    job.rel.law_of_rules();
    let made = rows_of(alloc, having, items.as_slice(), job)?;
    let is_open = may_lack_groups(job.places, job.rel) | made.marked;
    Rel::new(alloc, columns, made.rows, is_open, false)
}
