//! The runs of the versions so far.
ghost use Rattle.std.specs.Prelude.{◌≡◌, ◌⊎◌, ◌≤◌, ◌<◌, ◌^◌, ◌-◌, ◌++◌, [], ◌∷◌, List, IfOk, OnOk, OnErr, length, take};
ghost use Rattle.cell_model.specs.declared.cell.Cell.{Cell};
ghost use Rattle.cell_model.specs.Runs.{run_of};
ghost use Rattle.cell_model.specs.Trails.{Follows, cells_of};
ghost use Rattle.cell_model.specs.Answers.{IsRun};
ghost use Rattle.kept_runs.specs.Kept.{IsDone, KeptData, cells_at};

use cell_model::{Cell, CellMeaning, CellWork, Policy, Ran, Trail, front_of, run_on};
use std::alloc::Global;
use std::marker::{Model, PhantomData};
use value_types::{ArcOf, ListOf, NoMemory};

/// The policy, and the run of each version so far.
#[derive(Drop)]
pub struct Kept<W: CellMeaning> {
    policy: Policy,
    trails: ListOf<Trail>,
    work: PhantomData<W>,
}

impl<W: CellMeaning> Model for Kept<W> {
    ghost use Rattle.std.specs.Prelude.{map};
    ghost use Rattle.std.specs.Coded.{codes};
    ghost use Rattle.value_types.specs.contracts.row_id.RowId as row_id;
    ghost use Rattle.cell_model.specs.Trails.{cells_of};
    ghost use Rattle.kept_runs.specs.Kept.{KeptData, AllRuns};

    ghost Value = { KeptData };

    ghost coded = { Prim.hlevel (codes, row_id.the_row.coded) };

    ghost view = { λ k. record { policy = k.policy; versions = map cells_of k.trails } };

    ghost invariant = { λ k. AllRuns W.meaning k.policy k.trails };
}

impl<W: CellWork> Kept<W> {
    /// No runs.
    pub fn new(alloc: Global, policy: Policy) -> Result<Kept<W>, NoMemory>
        ensures { IfOk result (λ k. k ≡ record { policy = policy; versions = [] }) }
    {
        Ok(Kept {
            policy,
            trails: ListOf::new(alloc)?,
            work: PhantomData,
        })
    }

    /// How many versions' runs are kept.
    pub fn len(&self) -> usize
        ensures { result ≡ length self.now.versions }
    {
        self.trails.len()
    }

    /// The policy of the runs.
    pub fn policy(&self) -> Policy
        ensures { result ≡ self.now.policy }
    {
        self.policy
    }

    /// The run of the first cells of a version.
    fn front(&self, alloc: Global, base: usize, count: usize) -> Result<Trail, NoMemory>
        requires base { base ≤ length self.now.versions }
        requires count { count ≤ length (cells_at self.now.versions base) }
        ensures { (cells : List Cell) → count ≤ length cells
            → take count (cells_at self.now.versions base) ≡ take count cells
            → IfOk result (λ t. Follows W.meaning self.now.policy t cells) }
    {
        if base == 0 {
            return Trail::new(alloc);
        }
        front_of(alloc, &self.trails.as_slice()[base - 1], count)
    }

    /// Keeps a whole run as that of the next version.
    fn keep(&mut self, alloc: Global, trail: &Trail) -> Result<(), NoMemory>
        requires { trail.now ≡ run_of W.meaning self.old.policy (cells_of trail.now) }
        ensures ok { OnOk result (self.new
            ≡ record self.old { versions = self.old.versions ++ cells_of trail.now ∷ [] }) }
        ensures err { OnErr result (self.new ≡ self.old) }
    {
        let kept = front_of(alloc, trail, trail.len())?;
        self.trails.push(alloc, kept)?;
        Ok(())
    }

    #[tactic(auto, using(crate::proofs::KeptLemmas::run_again, crate::proofs::KeptLemmas::cells_again))]
    /// Runs the cells of a new version, whose first `count` cells are those of the kept version `base`.
    ///
    /// - Shape: versions count from 1; 0 stands for none.
    pub fn run(
        &mut self,
        alloc: Global,
        work: &W,
        base: usize,
        count: usize,
        cells: &[ArcOf<Cell>],
    ) -> Result<Ran, NoMemory>
        requires small { length cells.now < 2 ^ 32 }
        requires base { base ≤ length self.old.versions }
        requires most { count ≤ length (cells_at self.old.versions base) }
        requires count { count ≤ length cells.now }
        requires shares { take count (cells_at self.old.versions base) ≡ take count cells.now }
        ensures run { IfOk result (λ r.
            IsRun r self.old.policy (run_of W.meaning self.old.policy cells.now)) }
        ensures kept { IfOk result (λ r. IsDone r → self.new
            ≡ record self.old { versions = self.old.versions ++ cells.now ∷ [] }) }
        ensures starved { IfOk result (λ r. IsDone r ⊎ (self.new ≡ self.old)) }
        ensures policy { self.new.policy ≡ self.old.policy }
        ensures err { OnErr result (self.new ≡ self.old) }
    {
        let front = self.front(alloc, base, count)?;
        match run_on(alloc, work, self.policy, front, cells) {
            Ran::Starved { position } => Ok(Ran::Starved { position }),
            Ran::Done(trail) => {
                self.keep(alloc, &trail)?;
                Ok(Ran::Done(trail))
            }
        }
    }
}
