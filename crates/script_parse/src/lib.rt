//! The script that a text is, and the names that its statements touch.
//!
//! Start at `parse_script`, whose tree is `Script`. A tree is built from the steps of its text's
//! derivation as that of an expression is: `expr_parse` puts down what tokens say and builds the
//! expressions, and `act` makes the parts of a script, one equation an action in `specs/Pieces.antt`.
//! What a script means is not here.
#![tactic(auto)]

mod act;
mod parse;
mod piece;
mod pops;
mod script;
mod stmt;
#[cfg(test)]
mod tests;
mod touch;
mod touched;

pub use expr_parse::ParseFault;
pub use parse::parse_script;
pub use script::{Builder, Builders, Script};
pub use stmt::{Block, Stmt, Target};
pub use touched::{assigned, builders_touched, datasets_touched};
