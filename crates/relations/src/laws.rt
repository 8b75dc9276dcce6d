//! The law of types. It is a call that does nothing, and the law is its contract.
ghost use Rattle.relations.specs.Typed.{KeepsType};

use expr_lang::Expr;

/// What an expression gives over values that fit their columns is of its static type.
pub fn law_of_types(expr: &Expr)
    ensures { KeepsType expr.now }
{}
