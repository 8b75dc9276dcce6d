//! What an expression means: its static type, and its value with a mark over a row.
//!
//! Start at `eval` and `type_of`, and read `specs/Forms.antt`, which has one equation for each form of an
//! expression. `specs/Meaning.antt` reads these forms three times: without marks, with marks, and over what is
//! known where marked values aren't; `laws.rt` says how the three belong together. The operators on values are
//! not here, but in `expr_ops`; tables and their steps are not here, but above.
#![tactic(auto)]

mod bindings;
mod caveat;
mod evaluate;
mod expr_type;
mod laws;
mod marked;
mod named;
mod operators;
mod setting;
#[cfg(test)]
mod tests;
mod type_rules;
mod typing;

pub use bindings::{Binding, Bindings, Scope, ScopeColumn};
pub use evaluate::{eval, eval_in};
pub use expr_type::ExprType;
pub use laws::{law_of_erasure, law_of_known};
pub use named::{Named, meant};
pub use setting::Setting;
pub use typing::{TypedSetting, type_in, type_of};
