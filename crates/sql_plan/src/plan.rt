//! The plan of a SELECT.
ghost use Rattle.std.specs.Prelude.{◌≡◌};
ghost use Rattle.cell_errors.specs.Answers.{Gives};
ghost use Rattle.sql_plan.specs.Plan as spec;

use crate::core_plan::{CorePlan, CorePlans, core_checked};
use crate::heading::{Heading, Headings};
use crate::place::named_place;
use cell_errors::{CellError, EvalFault};
use expr_meaning::ScopeColumn;
use rel_ops::types_agree;
use relations::{ColumnPlaces, SortKey, SortKeys};
use sql_parse::{Core, OrderKey, Select};
use std::alloc::Global;
use value_types::ListOf;

/// A SELECT that is checked: what its steps need.
#[derive(Drop)]
pub struct Plan {
    pub cores: CorePlans,
    /// The output columns of ORDER BY, by their places.
    pub order: SortKeys,
}

#[tactic(auto, using(relations::proofs::Collecting::collecting))]
fn cores_checked(
    alloc: Global,
    headings: &[Heading],
    cores: &[Core],
) -> Result<CorePlans, EvalFault>
    ensures { Gives result (spec.cores_checked headings.now cores.now) }
{
    let mut all = ListOf::new(alloc)?;
    for core in cores {
        let plan = core_checked(alloc, headings, core)?;
        all.push(alloc, plan)?;
    }
    Ok(all)
}

fn agrees(columns: &[ScopeColumn], core: &CorePlan) -> bool
    ensures { result ≡ spec.agrees columns.now core.now }
{
    types_agree(columns, core.columns.as_slice())
}

fn all_agree(columns: &[ScopeColumn], cores: &[CorePlan]) -> bool
    ensures { result ≡ spec.all_agree columns.now cores.now }
{
    cores.iter().all(|core| agrees(columns, core))
}

fn sides_checked(cores: &[CorePlan]) -> Result<(), CellError>
    ensures { result ≡ spec.sides_checked cores.now }
{
    match cores.first() {
        None => Ok(()),
        Some(first) => {
            if all_agree(first.columns.as_slice(), cores) {
                Ok(())
            } else {
                Err(CellError::TypeFault)
            }
        }
    }
}

fn key_checked(places: &ColumnPlaces, key: &OrderKey) -> Result<SortKey, EvalFault>
    ensures { Gives result (spec.key_checked places.now key.now) }
{
    let column = named_place(places, &None, &key.name)?;
    Ok(SortKey {
        column,
        descending: key.descending,
    })
}

#[tactic(auto, using(relations::proofs::Collecting::collecting))]
fn keys_among(
    alloc: Global,
    places: &ColumnPlaces,
    keys: &[OrderKey],
) -> Result<SortKeys, EvalFault>
    ensures { Gives result (spec.keys_checked places.now keys.now) }
{
    let mut all = SortKeys::new(alloc)?;
    for key in keys {
        let found = key_checked(places, key)?;
        all.push(alloc, found)?;
    }
    Ok(all)
}

fn keys_checked(
    alloc: Global,
    columns: &[ScopeColumn],
    keys: &[OrderKey],
) -> Result<SortKeys, EvalFault>
    ensures { Gives result (spec.keys_checked columns.now keys.now) }
{
    let places = ColumnPlaces::new(alloc, columns)?;
    keys_among(alloc, &places, keys)
}

fn order_checked(
    alloc: Global,
    cores: &[CorePlan],
    keys: &[OrderKey],
) -> Result<SortKeys, EvalFault>
    ensures { Gives result (spec.keys_checked (spec.outputs cores.now) keys.now) }
{
    match cores.first() {
        None => keys_checked(alloc, &[], keys),
        Some(first) => keys_checked(alloc, first.columns.as_slice(), keys),
    }
}

/// The plan of a SELECT over datasets of these columns. One that isn't listed counts as one without columns.
///
/// - Error: the first of the cores, one after another; then `TypeFault` where the sides of a UNION differ in the number or the
///   types of their columns; then `NoColumn` for the first name of ORDER BY that isn't an output column.
/// - Source: docs/SELECT.md.
pub fn plan_of(alloc: Global, select: &Select, headings: &Headings) -> Result<Plan, EvalFault>
    ensures { Gives result (spec.checked select.now headings.now) }
{
    let cores = cores_checked(alloc, headings.as_slice(), select.cores.as_slice())?;
    sides_checked(cores.as_slice())?;
    let order = order_checked(alloc, cores.as_slice(), select.order.as_slice())?;
    Ok(Plan { cores, order })
}
