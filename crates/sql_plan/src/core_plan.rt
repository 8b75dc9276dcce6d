//! The plan of a core.
ghost use Rattle.std.specs.Prelude.{◌≡◌, Some, None};
ghost use Rattle.std.specs.List.{list_any};
ghost use Rattle.cell_errors.specs.Answers.{Gives};
ghost use Rattle.expr_meaning.specs.Calls.{type_setting};
ghost use Rattle.expr_meaning.specs.Types.{over_columns};
ghost use Rattle.sql_plan.specs.Aggregates as aggregates;
ghost use Rattle.sql_plan.specs.Conditions as conditions;
ghost use Rattle.sql_plan.specs.Cores as spec;
ghost use Rattle.sql_plan.specs.Groups.{grouped_setting};

use crate::aggregates::has_aggregate;
use crate::conditions::some_condition_checked;
use crate::groups::{key_columns, key_places};
use crate::heading::Heading;
use crate::items::{item_names, items_of};
use crate::names::each_once;
use crate::tables::{qualifiers, tables_checked};
use cell_errors::{CellError, EvalFault};
use expr_lang::Expr;
use expr_meaning::{Scope, TypedSetting};
use rel_ops::item_columns;
use relations::{ColumnRefs, Item, Items};
use sql_parse::Core;
use std::alloc::Global;
use value_types::ListOf;

/// What the steps of a core need.
#[derive(Drop)]
pub struct CorePlan {
    /// The core: its tables, joins, conditions and whether it is DISTINCT.
    pub core: Core,
    /// The places of the columns of GROUP BY among those of all tables, from 1; None where the core isn't grouped.
    pub keys: Option<ColumnRefs>,
    /// The items, each with its name; those that `*` stands for too.
    pub items: Items,
    /// The output columns.
    pub columns: Scope,
}

/// The plans of cores, in order.
pub type CorePlans = ListOf<CorePlan>;

fn any_aggregate(items: &[Item]) -> bool
    ensures { result ≡ list_any (λ i. aggregates.has_aggregate i.expr) items.now }
{
    for item in items {
        if has_aggregate(&item.expr) {
            return true;
        }
    }
    false
}

fn is_grouped(core: &Core, items: &[Item]) -> bool
    ensures { result ≡ spec.is_grouped core.now items.now }
{
    core.group_by.len() > 0 || core.having.is_some() || any_aggregate(items)
}

fn outputs_checked(
    alloc: Global,
    setting: &TypedSetting,
    having: &Option<Expr>,
    items: &[Item],
) -> Result<Scope, EvalFault>
    ensures { Gives result (spec.outputs_checked (type_setting setting.now) having.now items.now) }
{
    some_condition_checked(setting, having)?;
    let columns = item_columns(alloc, setting, items)?;
    let names = item_names(alloc, items)?;
    each_once(alloc, names.as_slice())?;
    Ok(columns)
}

/// The output columns of a core that isn't grouped.
fn plain_outputs(
    alloc: Global,
    columns: &Scope,
    having: &Option<Expr>,
    items: &[Item],
) -> Result<Scope, EvalFault>
    ensures { Gives result (spec.outputs_checked (over_columns columns.now) having.now items.now) }
{
    let setting = TypedSetting {
        columns,
        group: None,
    };
    outputs_checked(alloc, &setting, having, items)
}

/// The output columns of a grouped core.
fn grouped_outputs(
    alloc: Global,
    columns: &Scope,
    keys: &[u32],
    having: &Option<Expr>,
    items: &[Item],
) -> Result<Scope, EvalFault>
    ensures { Gives result
        (spec.outputs_checked (grouped_setting columns.now keys.now) having.now items.now) }
{
    let own = key_columns(alloc, columns.as_slice(), keys)?;
    let setting = TypedSetting {
        columns: &own,
        group: Some(columns),
    };
    outputs_checked(alloc, &setting, having, items)
}

fn items_checked(
    alloc: Global,
    core: &Core,
    columns: &Scope,
    keys: ColumnRefs,
) -> Result<CorePlan, EvalFault>
    ensures { Gives result (spec.items_checked core.now columns.now keys) }
{
    let items = items_of(alloc, columns.as_slice(), &core.items)?;
    if is_grouped(core, items.as_slice()) {
        let outputs = grouped_outputs(
            alloc,
            columns,
            keys.as_slice(),
            &core.having,
            items.as_slice(),
        )?;
        Ok(CorePlan {
            core: core.copy(alloc)?,
            keys: Some(keys),
            items,
            columns: outputs,
        })
    } else {
        let outputs = plain_outputs(alloc, columns, &core.having, items.as_slice())?;
        Ok(CorePlan {
            core: core.copy(alloc)?,
            keys: None,
            items,
            columns: outputs,
        })
    }
}

fn where_checked(columns: &Scope, condition: &Option<Expr>) -> Result<(), CellError>
    ensures { result ≡ conditions.some_condition_checked (over_columns columns.now) condition.now }
{
    let setting = TypedSetting {
        columns,
        group: None,
    };
    some_condition_checked(&setting, condition)
}

/// The plan of a core.
///
/// - Error: the first of its qualifiers, each ON, WHERE, GROUP BY, HAVING, the items' types and the output names.
pub(crate) fn core_checked(
    alloc: Global,
    headings: &[Heading],
    core: &Core,
) -> Result<CorePlan, EvalFault>
    ensures { Gives result (spec.core_checked headings.now core.now) }
{
    let names = qualifiers(alloc, core)?;
    each_once(alloc, names.as_slice())?;
    let columns = tables_checked(alloc, headings, core)?;
    where_checked(&columns, &core.condition)?;
    let keys = key_places(alloc, columns.as_slice(), core.group_by.as_slice())?;
    items_checked(alloc, core, &columns, keys)
}
