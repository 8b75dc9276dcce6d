//! FROM and its joins.
ghost use Rattle.std.specs.Prelude.{◌≡◌, IfOk};
ghost use Rattle.std.specs.Option.{option_copied};
ghost use Rattle.cell_errors.specs.Answers.{Gives};
ghost use Rattle.rel_join.specs.Rules.{AreApart};
ghost use Rattle.sql_plan.specs.Folds.{folded};
ghost use Rattle.sql_plan.specs.Headings.{table_columns};
ghost use Rattle.sql_meaning.specs.Calls.{steps_of, tables_of, headings_at, AreJoinable, chosen_at};
ghost use Rattle.sql_meaning.specs.Inputs.{named_tables};
ghost use Rattle.sql_meaning.specs.Steps as spec;

use crate::input::Input;
use crate::job::Job;
use cell_errors::{CellError, EvalFault};
use dataset_types::Table;
use expr_lang::Expr;
use rel_join::{join, left_join};
use rel_ops::filter_table;
use relations::Rel;
use sql_parse::{Core, JoinPart, TableRef};
use std::alloc::Global;
use value_types::Name;

fn table_of<'a>(inputs: &'a [Input], name: &Name) -> Option<&'a Table>
    ensures { option_copied result ≡ spec.table_of (named_tables inputs.entry.now) name.now }
{
    for input in inputs {
        if input.name.same(name) {
            return Some(input.table.get());
        }
    }
    None
}

fn rel_at(alloc: Global, job: &Job, table: &TableRef) -> Result<Rel, EvalFault>
    ensures { Gives result (spec.rel_at (steps_of job.now) (tables_of job.now) table.now) }
{
    match table_of(job.inputs, &table.dataset) {
        None => Err(EvalFault::Error(CellError::NoDataset)),
        Some(found) => {
            let qualifier = Some(table.qualifier.copy());
            Ok(Rel::of_table(alloc, found, &qualifier)?)
        }
    }
}

/// A table of FROM under its qualifier, and WHERE. The rows are left where they are, but for those that it keeps.
pub(crate) fn filtered_at(
    alloc: Global,
    job: &Job,
    table: &TableRef,
    condition: &Expr,
) -> Result<Rel, EvalFault>
    ensures { Gives result (chosen_at job.now table.now condition.now) }
{
    match table_of(job.inputs, &table.dataset) {
        None => Err(EvalFault::Error(CellError::NoDataset)),
        Some(found) => {
            let qualifier = Some(table.qualifier.copy());
            filter_table(alloc, found, &qualifier, condition, job.picks, job.cell)
        }
    }
}

fn joined(
    alloc: Global,
    job: &Job,
    sofar: &Rel,
    right: &Rel,
    part: &JoinPart,
) -> Result<Rel, EvalFault>
    requires { AreApart sofar.now.columns right.now.columns }
    ensures { Gives result
        ((steps_of job.now).join (spec.kind_of part.now.left) sofar.now right.now part.now.on) }
{
    if part.left {
        left_join(alloc, sofar, right, &part.on, job.picks, job.cell)
    } else {
        join(alloc, sofar, right, &part.on, job.picks, job.cell)
    }
}

fn joined_with(alloc: Global, job: &Job, sofar: &Rel, part: &JoinPart) -> Result<Rel, EvalFault>
    requires { AreApart sofar.now.columns (table_columns (headings_at job.now) part.now.table) }
    ensures { Gives result
        (spec.joined_with (steps_of job.now) (tables_of job.now) sofar.now part.now) }
{
    let right = rel_at(alloc, job, &part.table)?;
    joined(alloc, job, sofar, &right, part)
}

#[tactic(auto, using(sql_plan::proofs::Folding::folding))]
fn all_joined(alloc: Global, job: &Job, first: Rel, joins: &[JoinPart]) -> Result<Rel, EvalFault>
    requires { AreJoinable (headings_at job.now) first.columns joins.now }
    ensures { Gives result
        (folded (spec.joined_with (steps_of job.now) (tables_of job.now)) first joins.now) }
{
    let mut sofar = first;
    for part in joins {
        sofar = joined_with(alloc, job, &sofar, part)?;
    }
    Ok(sofar)
}

/// FROM with its joins, one after another.
pub(crate) fn joined_tables(alloc: Global, job: &Job, core: &Core) -> Result<Rel, EvalFault>
    requires { AreJoinable (headings_at job.now)
        (table_columns (headings_at job.now) core.now.table) core.now.joins }
    ensures { Gives result (spec.joined_tables (steps_of job.now) (tables_of job.now) core.now) }
{
    let first = rel_at(alloc, job, &core.table)?;
    all_joined(alloc, job, first, core.joins.as_slice())
}
