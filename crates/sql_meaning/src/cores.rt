//! The steps of a core.
ghost use Rattle.std.specs.Prelude.{◌≡◌, IsTrue};
ghost use Rattle.std.specs.Option.{ForSome};
ghost use Rattle.cell_errors.specs.Answers.{Gives, collect};
ghost use Rattle.dataset_types.specs.Tables.{Distinct};
ghost use Rattle.rel_ops.specs.Project.{item_names};
ghost use Rattle.rel_group.specs.Keys.{are_places};
ghost use Rattle.sql_plan.specs.Headings.{table_columns};
ghost use Rattle.sql_meaning.specs.Calls.{steps_of, tables_of, headings_at};
ghost use Rattle.sql_meaning.specs.Calls.{AreJoinable, IsPlanned, ArePlanned, chosen_rows};
ghost use Rattle.sql_meaning.specs.Steps as spec;

use crate::job::Job;
use crate::tables::{filtered_at, joined_tables};
use cell_errors::EvalFault;
use expr_lang::Expr;
use rel_group::{distinct, group};
use rel_ops::{filter, project};
use relations::{Items, Rel};
use sql_parse::Core;
use sql_plan::CorePlan;
use std::alloc::Global;
use value_types::ListOf;

fn filter_if(alloc: Global, job: &Job, rel: Rel, condition: &Option<Expr>) -> Result<Rel, EvalFault>
    ensures { Gives result (spec.filter_if (steps_of job.now) rel condition.now) }
{
    match condition {
        None => Ok(rel),
        Some(condition) => filter(alloc, rel, condition, job.picks, job.cell),
    }
}

fn output_by(alloc: Global, job: &Job, rel: &Rel, core: &CorePlan) -> Result<Rel, EvalFault>
    requires names { Distinct (item_names core.now.items) }
    requires places { ForSome core.now.keys (λ keys. IsTrue (are_places rel.now.columns keys)) }
    ensures { Gives result
        (spec.output_by (steps_of job.now) rel.now core.now.keys core.now.core.having core.now.items) }
{
    match &core.keys {
        None => project(alloc, rel, &core.items, job.picks, job.cell),
        Some(keys) => {
            let having = core.core.having.as_ref();
            group(alloc, rel, keys, having, &core.items, job.picks, job.cell)
        }
    }
}

fn distinct_if(alloc: Global, job: &Job, is_distinct: bool, rel: Rel) -> Result<Rel, EvalFault>
    ensures { Gives result (spec.distinct_if (steps_of job.now) is_distinct rel) }
{
    if is_distinct {
        distinct(alloc, &rel)
    } else {
        Ok(rel)
    }
}

/// FROM with its joins, and WHERE; of a single table only the rows that WHERE keeps are copied.
#[tactic(auto, using(crate::proofs::Chosen::single))]
fn filtered_tables(alloc: Global, job: &Job, core: &Core) -> Result<Rel, EvalFault>
    requires { AreJoinable (headings_at job.now)
        (table_columns (headings_at job.now) core.now.table) core.now.joins }
    ensures { Gives result (chosen_rows job.now core.now) }
{
    if core.joins.len() == 0 {
        if let Some(condition) = &core.condition {
            return filtered_at(alloc, job, &core.table, condition);
        }
    }
    let all = joined_tables(alloc, job, core)?;
    filter_if(alloc, job, all, &core.condition)
}

/// The steps of a core, one after another.
#[tactic(auto, using(crate::proofs::Chosen::core_after))]
fn core_rel(alloc: Global, job: &Job, core: &CorePlan) -> Result<Rel, EvalFault>
    requires { IsPlanned (headings_at job.now) core.now }
    ensures { Gives result (spec.core_rel (steps_of job.now) (tables_of job.now) core.now) }
{
    let rows = filtered_tables(alloc, job, &core.core)?;
    let out = output_by(alloc, job, &rows, core)?;
    distinct_if(alloc, job, core.core.distinct, out)
}

/// The steps of each core, or the first error.
#[tactic(auto, using(relations::proofs::Collecting::collecting))]
pub(crate) fn core_rels(
    alloc: Global,
    job: &Job,
    cores: &[CorePlan],
) -> Result<ListOf<Rel>, EvalFault>
    requires { ArePlanned (headings_at job.now) cores.now }
    ensures { Gives result
        (collect (spec.core_rel (steps_of job.now) (tables_of job.now)) cores.now) }
{
    let mut all = ListOf::new(alloc)?;
    for core in cores {
        let rel = core_rel(alloc, job, core)?;
        all.push(alloc, rel)?;
    }
    Ok(all)
}
