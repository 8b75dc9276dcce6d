//! What a SELECT gives: its datasets are read, its plan is made, and the steps are taken.
//!
//! Start at `run_select`, and read `specs/Steps.antt`: one text says in which order the steps come, and is read with marks in
//! `specs/Select.antt` and without them in `specs/Plain.antt`. `laws.rt` says how the two belong together. The steps
//! themselves are not here, but in `rel_ops`, `rel_join` and `rel_group`, and the static checks are in `sql_plan`.
#![tactic(auto)]

mod cores;
mod finish;
mod input;
mod job;
mod laws;
mod reading;
mod run;
mod tables;
#[cfg(test)]
mod tests;
#[cfg(test)]
mod tests_errors;
#[cfg(test)]
mod tests_marks;
#[cfg(test)]
mod tests_picks;
#[cfg(test)]
mod tests_wide;

pub use input::{Input, Inputs};
pub use laws::law_of_select;
pub use run::run_select;
