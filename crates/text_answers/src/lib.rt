//! The expression, and the SELECT, that a text is, as functions of the text.
//!
//! `parse_expr` and `parse_select` say of their answers what the grammar says of the text. Contracts
//! that need the answer as a function take `expr_of` and `select_of` of `specs/Answers.antt`, and code
//! calls `parsed_expr` and `parsed_select`, which answer exactly that, with the errors of cells.
//! The trees are not here, but in `expr_lang` and `sql_parse`.
#![tactic(auto)]

mod laws;
mod parsed;
#[cfg(test)]
mod tests;

pub use laws::{law_of_expressions, law_of_selects};
pub use parsed::{parsed_expr, parsed_select};
