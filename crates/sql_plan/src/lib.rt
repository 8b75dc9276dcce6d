//! The plan of a SELECT: what its static checks find, from the columns of its datasets alone.
//!
//! Start at `plan_of` and `Plan`, and read `specs/Plan.antt` and `specs/Cores.antt`: the order of errors is the text of the
//! definitions, one line a check. What the steps make of a plan is not here, but in `sql_meaning`.
#![tactic(auto)]

mod aggregates;
mod conditions;
mod core_plan;
mod groups;
mod heading;
mod items;
mod names;
mod place;
mod plan;
mod tables;
#[cfg(test)]
mod tests;

pub use core_plan::{CorePlan, CorePlans};
pub use heading::{Heading, Headings};
pub use plan::{Plan, plan_of};
