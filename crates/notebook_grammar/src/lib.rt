//! The one grammar of the notebook's texts: expressions, SELECT and scripts.
//!
//! A text is cut into tokens (`specs/Lexemes.antt`), and one table of rules derives them: that of
//! `specs/Expressions.antt`, `Selects.antt` and `Scripts.antt`. Start at `steps_of`, which gives the
//! steps of a text's derivation or the place where it errs. The trees are not here: expr_lang,
//! sql_parse and script_parse build them from the steps, by the shapes of `specs/Effects.antt`.
#![tactic(auto)]

mod action;
mod expressions;
mod fault;
mod kind;
mod laws;
mod lexeme;
mod machine;
mod row;
mod rule;
mod scan;
mod scripts;
mod selects;
mod start;
mod steps;
mod table;
#[cfg(test)]
mod tests;
#[cfg(test)]
mod tests_places;
mod token;
mod words;

pub use action::{Action, ExprAction, ScriptAction, SelectAction};
pub use fault::ParseFault;
pub use kind::Kind;
pub use laws::{
    law_of_one_answer, law_of_one_derivation, law_of_one_reading, law_of_order, law_of_trees,
    law_of_values,
};
pub use lexeme::Lexeme;
pub use machine::Steps;
pub use rule::{ExprRule, Rule, ScriptRule, SelectRule};
pub use start::Start;
pub use steps::steps_of;
pub use token::{Token, TokenKind, Tokens, tokens};
