//! The errors of cells, and what stands in for a value where there is none.
//!
//! Every crate whose calls can leave a cell in error answers with these two types. Start at `CellError`,
//! and read `specs/Answers.antt` for what a meaning gives and how a call's answer is held against it.
//! What an expression means is not here, but in `expr_meaning`.
#![tactic(auto)]

mod fault;

pub use fault::{CellError, EvalFault};
