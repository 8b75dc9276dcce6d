//! JOIN and LEFT JOIN, over all pairs of rows.
//!
//! Start at `join` and `left_join`, and read `specs/Join.antt`: one definition for both says what a join gives with marks, another
//! what it gives without them, and a third what it makes of what is shown. `laws.rt` says how the three belong together.
#![tactic(auto)]

mod apart;
mod equality;
mod few;
mod joining;
mod kind;
mod laws;
mod lone;
mod pairs;
#[cfg(test)]
mod tests;
#[cfg(test)]
mod tests_marks;

pub use apart::are_apart;
pub use joining::{join, left_join};
pub use kind::Kind;
pub use laws::law_of_join;
