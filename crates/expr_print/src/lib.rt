//! The text of an expression.
//!
//! Start at `print_expr`, and read `specs/Tokens.antt` for the text and `specs/Printable.antt` for
//! the expressions that it gives back: that it does is the law of `src/laws.rt`. Parsing is not
//! here, but in `expr_parse`.
#![tactic(auto)]

mod laws;
mod print;
#[cfg(test)]
mod tests;
mod token;

pub use laws::law_of_printing;
pub use print::print_expr;
