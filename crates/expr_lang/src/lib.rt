//! The tree of an expression.
//!
//! Start at `Expr`. A contract sees a tree without pointers: a `Boxed` as what it holds, a list as a list.
//! What an expression means is not here, but in `expr_meaning`.
#![tactic(auto)]

mod copy;
mod expr;
mod ops;
#[cfg(test)]
mod tests;

pub use expr::{Arm, Arms, Expr, Exprs};
pub use ops::{BinaryOp, UnaryOp};
