//! What comes after the cores.
ghost use Rattle.std.specs.Prelude.{◌≡◌, false, Ok, []};
ghost use Rattle.cell_errors.specs.Answers.{Gives};
ghost use Rattle.relations.specs.Rels.{rel_of};
ghost use Rattle.sql_plan.specs.Folds.{folded};
ghost use Rattle.sql_plan.specs.Plan.{checked};
ghost use Rattle.rel_ops.specs.Union.{united};
ghost use Rattle.sql_meaning.specs.Calls.{steps_of, tables_of, headings_at, AllAgree, SidesAgree};
ghost use Rattle.sql_meaning.specs.Steps as spec;

use crate::cores::core_rels;
use crate::job::Job;
use cell_errors::EvalFault;
use dataset_types::{Rows, Table};
use expr_meaning::Scope;
use rel_ops::{limit, sort, union_all};
use relations::Rel;
use sql_parse::Select;
use sql_plan::Plan;
use std::alloc::Global;
use value_types::ListOf;

fn nothing(alloc: Global) -> Result<Rel, EvalFault>
    ensures { Gives result (Ok (rel_of [] [] false false)) }
{
    let columns = Scope::new(alloc)?;
    let rows = Rows::new(alloc)?;
    Rel::new(alloc, columns, rows, false, false)
}

#[tactic(auto, using(sql_plan::proofs::Folding::folding))]
fn united_with(alloc: Global, first: Rel, others: Vec<Rel>) -> Result<Rel, EvalFault>
    requires { AllAgree first.columns others.items }
    ensures { Gives result (folded united first others.items) }
{
    let mut sofar = first;
    for side in others {
        sofar = union_all(alloc, sofar, side)?;
    }
    Ok(sofar)
}

/// UNION ALL from the left.
fn all_united(alloc: Global, job: &Job, sides: ListOf<Rel>) -> Result<Rel, EvalFault>
    requires { SidesAgree sides }
    ensures { Gives result (spec.all_united (steps_of job.now) sides) }
{
    let mut sides = sides.into_vec();
    if sides.is_empty() {
        return nothing(alloc);
    }
    let first = sides.remove(0);
    united_with(alloc, first, sides)
}

fn limit_if(alloc: Global, job: &Job, rel: Rel, count: Option<u64>) -> Result<Rel, EvalFault>
    ensures { Gives result (spec.limit_if (steps_of job.now) rel count) }
{
    match count {
        None => Ok(rel),
        Some(count) => limit(alloc, rel, count),
    }
}

/// The steps of a plan, and the table of the result.
pub(crate) fn planned(
    alloc: Global,
    job: &Job,
    select: &Select,
    plan: &Plan,
) -> Result<Table, EvalFault>
    requires { checked select.now (headings_at job.now) ≡ Ok plan.now }
    ensures { Gives result
        (spec.planned (steps_of job.now) (tables_of job.now) plan.now select.now.limit) }
{
    let sides = core_rels(alloc, job, plan.cores.as_slice())?;
    let all = all_united(alloc, job, sides)?;
    let ordered = sort(alloc, all, &plan.order)?;
    let first = limit_if(alloc, job, ordered, select.limit)?;
    first.into_table(alloc)
}
