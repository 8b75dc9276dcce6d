//! The expression that a text is.
//!
//! Start at `parse_expr`. A tree is built from the steps of its text's derivation: `take` puts a token's
//! value down, and `act_on` makes larger pieces of those on top, one equation an action in
//! `specs/Pieces.antt`. The languages in which expressions stand build theirs by the same calls.
//! The tree is not here, but in `expr_lang`, and what it means in `expr_meaning`.
#![tactic(auto)]

mod act;
mod operator;
mod parse;
mod piece;
mod pieces;
#[cfg(test)]
mod tests;
#[cfg(test)]
mod tests_shapes;
mod values;

pub use act::act_on;
pub use notebook_grammar::{ParseFault, Token, TokenKind, Tokens, tokens};
pub use parse::parse_expr;
pub use piece::Piece;
pub use pieces::Pieces;
pub use values::take;
