//! What the operators of expressions give on values.
//!
//! Each operator is a function of its operands' values and knows nothing of columns and marks. Start at
//! `unary`, `binary` and `specs/Ops.antt`. A Fixed counts ten-thousandths, and all arithmetic is exact
//! before it is cut toward zero. Which operands are looked at is not here, but in `expr_meaning`.
#![tactic(auto)]

mod aggregates;
mod casts;
mod compare;
mod number;
mod ops;
mod pattern;
#[cfg(test)]
mod tests;
#[cfg(test)]
mod tests_text;
mod text;
mod truth;

pub use aggregates::{Aggregate, aggregated};
pub use casts::cast;
pub use compare::equal;
pub use number::Arithmetic;
pub use ops::{binary, binary_in_place, decides, unary};
pub use pattern::like;
pub use truth::{is_null, is_true, negated_if, null_test};
