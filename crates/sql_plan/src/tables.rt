//! The tables of a core.
ghost use Rattle.std.specs.Prelude.{◌≡◌, IfOk};
ghost use Rattle.cell_errors.specs.Answers.{Gives};
ghost use Rattle.expr_meaning.specs.Types.{over_columns};
ghost use Rattle.sql_plan.specs.Conditions as conditions;
ghost use Rattle.sql_plan.specs.Cores as spec;
ghost use Rattle.sql_plan.specs.Folds.{folded};

use crate::conditions::condition_checked;
use crate::heading::{Heading, push_table};
use cell_errors::{CellError, EvalFault};
use expr_lang::Expr;
use expr_meaning::{Scope, TypedSetting};
use sql_parse::{Core, JoinPart};
use std::alloc::Global;
use value_types::{Names, NoMemory};

/// The qualifiers of a core's tables.
pub(crate) fn qualifiers(alloc: Global, core: &Core) -> Result<Names, NoMemory>
    ensures { IfOk result (λ ns. ns ≡ spec.qualifiers core.now) }
{
    let mut all = Names::new(alloc)?;
    all.push(alloc, core.table.qualifier.copy())?;
    for join in core.joins.as_slice() {
        all.push(alloc, join.table.qualifier.copy())?;
    }
    Ok(all)
}

fn on_checked(columns: &Scope, on: &Expr) -> Result<(), CellError>
    ensures { result ≡ conditions.condition_checked (over_columns columns.now) on.now }
{
    let setting = TypedSetting {
        columns,
        group: None,
    };
    condition_checked(&setting, on)
}

fn join_checked(
    alloc: Global,
    headings: &[Heading],
    columns: Scope,
    join: &JoinPart,
) -> Result<Scope, EvalFault>
    ensures { Gives result (spec.join_checked headings.now columns join.now) }
{
    let mut more = columns;
    push_table(alloc, &mut more, headings, &join.table)?;
    on_checked(&more, &join.on)?;
    Ok(more)
}

/// The columns of the tables joined so far and of those that are left.
#[tactic(auto, using(crate::proofs::Folding::folding))]
fn joins_checked(
    alloc: Global,
    headings: &[Heading],
    first: Scope,
    joins: &[JoinPart],
) -> Result<Scope, EvalFault>
    ensures { Gives result (folded (spec.join_checked headings.now) first joins.now) }
{
    let mut columns = first;
    for join in joins {
        columns = join_checked(alloc, headings, columns, join)?;
    }
    Ok(columns)
}

/// The columns of all tables of a core.
///
/// - Error: the first of an ON, which is over the tables up to and including its own.
pub(crate) fn tables_checked(
    alloc: Global,
    headings: &[Heading],
    core: &Core,
) -> Result<Scope, EvalFault>
    ensures { Gives result (spec.tables_checked headings.now core.now) }
{
    let mut columns = Scope::new(alloc)?;
    push_table(alloc, &mut columns, headings, &core.table)?;
    joins_checked(alloc, headings, columns, core.joins.as_slice())
}
