//! The steps of a serial run, which later runs may share.
ghost use Rattle.std.specs.Prelude.{◌≡◌, ◌≤◌, ◌<◌, [], IfOk, IfSome, IsNone, length, take, true};
ghost use Rattle.dataset_types.specs.Envs.{empty_env};
ghost use Rattle.cell_model.specs.declared.run.Policy.{Policy};
ghost use Rattle.cell_model.specs.Runs.{goes_on, env_after, Reaches};
ghost use Rattle.cell_model.specs.Trails.{going_after, cells_of, results_of};

use crate::cell::{Cell, Cells};
use crate::cell_result::{CellResult, Results};
use crate::run::Policy;
use dataset_types::Env;
use std::alloc::Global;
use std::marker::Model;
use value_types::{ArcOf, ListOf, NoMemory};

/// A cell, its result, and the environment after it.
#[derive(Drop)]
pub struct Step {
    cell: ArcOf<Cell>,
    result: ArcOf<CellResult>,
    env: Env,
}

impl Model for Step {
    ghost use Rattle.std.specs.Coded.{codes};
    ghost use Rattle.value_types.specs.contracts.row_id.RowId as row_id;
    ghost use Rattle.cell_model.specs.Runs.{StepData};

    ghost Value = { StepData };

    ghost coded = { Prim.hlevel (codes, row_id.the_row.coded) };

    ghost view = { λ s. record { cell = s.cell; result = s.result; env = s.env } };
}

impl Step {
    pub fn new(cell: ArcOf<Cell>, outcome: ArcOf<CellResult>, env: Env) -> Step
        ensures { result ≡ record { cell = cell; result = outcome; env = env } }
    {
        Step {
            cell,
            result: outcome,
            env,
        }
    }

    pub fn cell(&self) -> &ArcOf<Cell>
        ensures { result.now ≡ self.now.cell }
    {
        &self.cell
    }

    pub fn outcome(&self) -> &ArcOf<CellResult>
        ensures { result.now ≡ self.now.result }
    {
        &self.result
    }

    pub fn env(&self) -> &Env
        ensures { result.now ≡ self.now.env }
    {
        &self.env
    }
}

/// The steps of a run, in order. A copy shares them.
pub type Trail = ListOf<ArcOf<Step>>;

/// The first steps of a trail, shared with it.
pub fn front_of(alloc: Global, trail: &Trail, count: usize) -> Result<Trail, NoMemory>
    requires { count ≤ length trail.now }
    ensures { IfOk result (λ t. t ≡ take count trail.now) }
{
    let mut front = Trail::new(alloc)?;
    for step in &trail.as_slice()[..count] {
        front.push(alloc, step.copy(alloc)?)?;
    }
    Ok(front)
}

/// The cells of a trail, shared with it.
pub fn cells_of(alloc: Global, trail: &Trail) -> Result<Cells, NoMemory>
    ensures { IfOk result (λ cells. cells ≡ cells_of trail.now) }
{
    let mut cells = Cells::new(alloc)?;
    for step in trail.as_slice() {
        cells.push(alloc, step.get().cell().copy(alloc)?)?;
    }
    Ok(cells)
}

/// The results of a trail, shared with it.
pub fn results_of(alloc: Global, trail: &Trail) -> Result<Results, NoMemory>
    ensures { IfOk result (λ results. results ≡ results_of trail.now) }
{
    let mut results = Results::new(alloc)?;
    for step in trail.as_slice() {
        results.push(alloc, step.get().outcome().copy(alloc)?)?;
    }
    Ok(results)
}

/// The last step, which tells how the run goes on.
pub fn last_of(trail: &Trail) -> Option<&Step>
    ensures env { IfSome result (λ s. env_after empty_env trail.now ≡ s.now.env) }
    ensures going { IfSome result (λ s. (p : Policy)
        → going_after p true trail.now ≡ goes_on p s.now.result.status) }
    ensures empty { IsNone result → trail.now ≡ [] }
{
    let steps = trail.as_slice();
    if steps.is_empty() {
        return None;
    }
    Some(steps[steps.len() - 1].get())
}

/// How many of the first steps let the run go on.
pub fn count_going(policy: Policy, steps: &[ArcOf<Step>]) -> usize
    ensures within { result ≤ length steps.now }
    ensures reached { Reaches policy result steps.now }
{
    let mut count = 0;
    for step in steps {
        if !policy.goes_on(step.get().outcome().get().status) {
            return count;
        }
        count += 1;
    }
    count
}
