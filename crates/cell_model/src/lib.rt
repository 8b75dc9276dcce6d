//! Cells, what a run of one gives, records of runs, and the serial run of a version's cells.
//!
//! Nothing here names a kind of work: what a cell means is a member of the trait `CellMeaning`, and
//! `run_all` runs cells over any `CellWork`. Start at `run_all`, and read `specs/Runs.antt` for what
//! the serial run is. How a kind of cell is run is not here, but in `cell_kinds`.
#![tactic(auto)]

mod cell;
mod cell_result;
mod env_reads;
mod laws;
mod reads;
mod record;
mod refusal;
mod run;
#[cfg(test)]
mod tests;
mod trail;
mod work;
mod work_fault;

pub use cell::{Cell, CellKind, Cells};
pub use cell_result::{CellResult, CellStatus, Line, Lines, Results, Writes};
pub use env_reads::EnvReads;
pub use laws::{law_of_faults, law_of_policies, law_of_stop};
pub use reads::{Ended, Reads};
pub use record::{CellMeaning, Record};
pub use refusal::EditRefusal;
pub use run::{Policy, Ran, RunAll, Settled, run_all, run_on};
pub use trail::{Step, Trail, front_of};
pub use work::{CellWork, Estimate};
pub use work_fault::WorkFault;
