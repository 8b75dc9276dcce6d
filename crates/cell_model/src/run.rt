//! The serial run of a version's cells.
ghost use Rattle.std.specs.Prelude.{◌≡◌, ◌≤◌, ◌<◌, ◌^◌, ◌-◌, ◌++◌, ◌∷◌, [], length, Ok, IfOk, OnOk, OnErr};
ghost use Rattle.dataset_types.specs.Envs.{look, after_writes, empty_env};
ghost use Rattle.cell_model.specs.Runs.{goes_on, next_result, step, after_cell, run_of};
ghost use Rattle.cell_model.specs.Trails.{next_of, Follows, cells_of};
ghost use Rattle.cell_model.specs.Answers.{IsReached, IsRun, Settles, IsSettledRun};

use crate::cell::{Cell, Cells};
use crate::cell_result::{CellResult, CellStatus, Results};
use crate::env_reads::EnvReads;
use crate::trail::{Step, Trail, cells_of, count_going, last_of, results_of};
use crate::work::CellWork;
use dataset_types::Env;
use std::alloc::Global;
use value_types::{ArcOf, NoMemory};

/// What becomes of the cells after one in error.
#[derive(Clone, Copy, Debug, PartialEq, Eq)]
pub enum Policy {
    /// They are blocked.
    Stop,
    /// They are run.
    Carry,
}

impl Policy {
    /// Whether the cells after a status are run.
    pub fn goes_on(self, status: CellStatus) -> bool
        ensures { result ≡ goes_on self status }
    {
        match self {
            Policy::Stop => status.is_ok(),
            Policy::Carry => true,
        }
    }
}

/// A version's cells with their results, and the environment after them.
#[derive(Drop)]
pub struct Settled {
    pub cells: Cells,
    pub results: Results,
    pub env: Env,
}

/// What a serial run answers.
#[derive(Drop)]
pub enum RunAll {
    Done(Settled),
    /// No memory was found at this position, counted from 1.
    Starved { position: u32 },
}

/// What a run that goes on from a front answers.
#[derive(Drop)]
pub enum Ran {
    Done(Trail),
    /// No memory was found at this position, counted from 1.
    Starved { position: u32 },
}

impl Settled {
    // No cells, over the empty environment.
    fn none(alloc: Global) -> Result<Settled, NoMemory>
        ensures { result ≡ Ok (record { cells = []; results = []; env = empty_env }) }
    {
        Ok(Settled {
            cells: Cells::new(alloc)?,
            results: Results::new(alloc)?,
            env: Env::new(alloc)?,
        })
    }

    /// The cells, results and last environment of a trail, shared with it.
    pub fn from_trail(alloc: Global, trail: &Trail) -> Result<Settled, NoMemory>
        ensures { IfOk result (λ settled. Settles settled trail.now) }
    {
        let env = match last_of(trail) {
            Some(step) => step.env().copy(alloc)?,
            None => Env::new(alloc)?,
        };
        Ok(Settled {
            cells: cells_of(alloc, trail)?,
            results: results_of(alloc, trail)?,
            env,
        })
    }

    /// Equal cells, results and environment; cells and results are shared.
    pub fn copy(&self, alloc: Global) -> Result<Settled, NoMemory>
        ensures { IfOk result (λ settled. settled ≡ self.now) }
    {
        Ok(Settled {
            cells: self.cells.copy(alloc)?,
            results: self.results.copy(alloc)?,
            env: self.env.copy(alloc)?,
        })
    }
}

// What a cell gives in an environment.
fn outcome_in<W: CellWork>(
    alloc: Global,
    work: &W,
    env: &Env,
    cell: &ArcOf<Cell>,
) -> Result<CellResult, NoMemory>
    ensures { IfOk result (λ r. r ≡ W.meaning cell.now (look env.now)) }
{
    let mut reads = EnvReads::new(alloc, env)?;
    match work.run(alloc, cell, &mut reads) {
        Ok(record) => Ok(record.into_outcome()),
        Err(_) => Err(NoMemory),
    }
}

// The result of a cell where the run goes on, else `blocked`.
fn next_result<W: CellWork>(
    alloc: Global,
    work: &W,
    going: bool,
    env: &Env,
    cell: &ArcOf<Cell>,
) -> Result<CellResult, NoMemory>
    ensures { IfOk result (λ r. r ≡ next_result W.meaning going env.now cell.now) }
{
    if going {
        outcome_in(alloc, work, env, cell)
    } else {
        CellResult::bare(alloc, CellStatus::Blocked)
    }
}

// The environment, with every name in doubt where a blur is over it.
#[tactic(auto, using(crate::proofs::RunLemmas::no_writes_stay))]
fn after_blur(alloc: Global, env: &Env, blur: bool) -> Result<Env, NoMemory>
    ensures { IfOk result (λ e. e ≡ after_writes env.now blur []) }
{
    let mut after = env.copy(alloc)?;
    if blur {
        after.blur(alloc)?;
    }
    Ok(after)
}

// The environment after a result: blurred first, where it blurs, and then with its writes.
fn after_cell(alloc: Global, env: &Env, outcome: &CellResult) -> Result<Env, NoMemory>
    ensures { IfOk result (λ e. e ≡ after_cell env.now outcome.now) }
{
    let mut after = after_blur(alloc, env, outcome.blur)?;
    after.set_all(alloc, outcome.writes.as_slice())?;
    Ok(after)
}

fn step_after<W: CellWork>(
    alloc: Global,
    work: &W,
    going: bool,
    env: &Env,
    cell: &ArcOf<Cell>,
) -> Result<Step, NoMemory>
    ensures { IfOk result (λ s. s ≡ step W.meaning going env.now cell.now) }
{
    let outcome = next_result(alloc, work, going, env, cell)?;
    let after = after_cell(alloc, env, &outcome)?;
    Ok(Step::new(cell.copy(alloc)?, ArcOf::new(alloc, outcome)?, after))
}

/// The step of a cell after those of a trail.
pub fn next_step<W: CellWork>(
    alloc: Global,
    work: &W,
    policy: Policy,
    trail: &Trail,
    cell: &ArcOf<Cell>,
) -> Result<Step, NoMemory>
    ensures { IfOk result (λ s. s ≡ next_of W.meaning policy trail.now cell.now) }
{
    match last_of(trail) {
        None => step_after(alloc, work, true, &Env::new(alloc)?, cell),
        Some(last) => {
            let going = policy.goes_on(last.outcome().get().status);
            step_after(alloc, work, going, last.env(), cell)
        }
    }
}

// One cell more.
fn add_step<W: CellWork>(
    alloc: Global,
    work: &W,
    policy: Policy,
    trail: &mut Trail,
    cell: &ArcOf<Cell>,
) -> Result<(), NoMemory>
    ensures ok { OnOk result
        (trail.new ≡ trail.old ++ next_of W.meaning policy trail.old cell.now ∷ []) }
    ensures err { OnErr result (trail.new ≡ trail.old) }
{
    let step = next_step(alloc, work, policy, trail, cell)?;
    trail.push(alloc, ArcOf::new(alloc, step)?)
}

/// Runs the cells that follow those of a front, over the steps of the front.
///
/// - Starved: want of memory, at a position that isn't blocked.
pub fn run_on<W: CellWork>(
    alloc: Global,
    work: &W,
    policy: Policy,
    front: Trail,
    cells: &[ArcOf<Cell>],
) -> Ran
    requires small { length cells.now < 2 ^ 32 }
    requires follows { Follows W.meaning policy front cells.now }
    ensures { IsRun result policy (run_of W.meaning policy cells.now) }
{
    let mut trail = front;
    while trail.len() < cells.len() {
        let cell = &cells[trail.len()];
        let Ok(()) = add_step(alloc, work, policy, &mut trail, cell) else {
            let position = count_going(policy, trail.as_slice()) as u32 + 1;
            return Ran::Starved { position };
        };
    }
    Ran::Done(trail)
}

// A position that the whole run reaches.
fn last_reached(policy: Policy, trail: &Trail) -> u32
    requires some { 0 < length trail.now }
    requires small { length trail.now < 2 ^ 32 }
    ensures { IsReached policy result trail.now }
{
    let steps = trail.as_slice();
    count_going(policy, &steps[..steps.len() - 1]) as u32 + 1
}

// A whole run as what it settles.
fn settle(alloc: Global, policy: Policy, trail: &Trail) -> RunAll
    requires some { 0 < length trail.now }
    requires small { length trail.now < 2 ^ 32 }
    ensures { IsSettledRun result policy (cells_of trail.now) trail.now }
{
    match Settled::from_trail(alloc, trail) {
        Ok(settled) => RunAll::Done(settled),
        Err(_) => RunAll::Starved {
            position: last_reached(policy, trail),
        },
    }
}

/// Runs the cells one after another, over the empty environment. The empty list is always done.
///
/// - Starved: want of memory, at a position that isn't blocked.
pub fn run_all<W: CellWork>(
    alloc: Global,
    work: &W,
    policy: Policy,
    cells: &[ArcOf<Cell>],
) -> RunAll
    requires { length cells.now < 2 ^ 32 }
    ensures { IsSettledRun result policy cells.now (run_of W.meaning policy cells.now) }
{
    if cells.is_empty() {
        return match Settled::none(alloc) {
            Ok(settled) => RunAll::Done(settled),
            Err(_) => RunAll::Starved { position: 0 },
        };
    }
    let Ok(front) = Trail::new(alloc) else {
        return RunAll::Starved { position: 1 };
    };
    match run_on(alloc, work, policy, front, cells) {
        Ran::Done(trail) => settle(alloc, policy, &trail),
        Ran::Starved { position } => RunAll::Starved { position },
    }
}
