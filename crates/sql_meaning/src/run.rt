//! SELECT as a whole.
ghost use Rattle.std.specs.Prelude.{◌≡◌, [], None, IfOk};
ghost use Rattle.cell_errors.specs.Answers.{Gives};
ghost use Rattle.cell_model.specs.Works.{Works, KeepsSource};
ghost use Rattle.sql_meaning.specs.Calls.{steps_of, tables_of, headings_at};
ghost use Rattle.sql_meaning.specs.Select as spec;
ghost use Rattle.sql_meaning.specs.Steps as steps;

use crate::finish::planned;
use crate::input::{Input, Inputs, any_doubt};
use crate::job::Job;
use crate::reading::read_inputs;
use cell_errors::EvalFault;
use cell_model::{Reads, WorkFault};
use dataset_types::{Picks, Slot, Table};
use sql_parse::{Select, names_of};
use sql_plan::{Heading, Headings, plan_of};
use std::alloc::Global;
use value_types::{ArcOf, NoMemory};

fn headings_of(alloc: Global, job: &Job) -> Result<Headings, NoMemory>
    ensures { IfOk result (λ hs. hs ≡ headings_at job.now) }
{
    let mut all = Headings::new(alloc)?;
    for input in job.inputs {
        let columns = input.table.get().columns().copy(alloc)?;
        let dataset = input.name.copy();
        all.push(alloc, Heading { dataset, columns })?;
    }
    Ok(all)
}

fn selected(alloc: Global, job: &Job, select: &Select) -> Result<Table, EvalFault>
    ensures { Gives result (steps.selected (steps_of job.now) (tables_of job.now) select.now) }
{
    let headings = headings_of(alloc, job)?;
    let plan = plan_of(alloc, select, &headings)?;
    planned(alloc, job, select, &plan)
}

/// What a SELECT gives of datasets that were read.
fn select_slot(
    alloc: Global,
    inputs: &Inputs,
    select: &Select,
    cell: u32,
    picks: &Picks,
) -> Result<Slot, EvalFault>
    ensures { Gives result (spec.select_slot inputs.now select.now picks.now cell) }
{
    let job = Job {
        inputs: inputs.as_slice(),
        picks,
        cell,
    };
    let table = selected(alloc, &job, select)?;
    Ok(Slot {
        table: Some(ArcOf::new(alloc, table)?),
        doubt: any_doubt(inputs.as_slice()),
    })
}

/// What a SELECT gives: a dataset, doubtful exactly where one that it read is.
///
/// - Shape: the datasets behind FROM and in joins are read first, in the text's order, each once. A SELECT without a core, which no
///   text is, gives a dataset without columns.
/// - Error: `NoDataset` at the first that is absent, and nothing is read after it; then that of the static checks, as of `plan_of`;
///   then the first of the steps, core by core, then of UNION ALL, ORDER BY and LIMIT; then `TooLarge` for more than 32 columns.
///   An end other than want of memory only where a read answered it in this call.
/// - Source: docs/SELECT.md.
pub fn run_select<R: Reads>(
    alloc: Global,
    select: &Select,
    cell: u32,
    picks: &Picks,
    reads: &mut R,
) -> Result<Slot, WorkFault>
    requires fresh { R.asked reads.old ≡ [] }
    requires going { R.ended reads.old ≡ None }
    ensures works { Works (λ look. spec.select_meaning look select.now picks.now cell)
        (λ look. spec.select_names look select.now)
        result (R.asked reads.new) (R.ended reads.new) }
    ensures source { KeepsSource (R.source reads.old) (R.source reads.new) (R.asked reads.new) }
{
    let names = names_of(alloc, select)?;
    let inputs = read_inputs(alloc, names.as_slice(), reads)?;
    let slot = select_slot(alloc, &inputs, select, cell, picks)?;
    Ok(slot)
}
