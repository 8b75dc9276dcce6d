//! The laws of the readings.
ghost use Rattle.expr_meaning.specs.Laws.{ErasesTo, IsKnown};

use expr_lang::Expr;

/// The values of an evaluation with marks are those of one without.
pub fn law_of_erasure(expr: &Expr)
    ensures { ErasesTo expr.now }
{}

/// What is known of an outcome is what the known values give, whatever the picks.
pub fn law_of_known(expr: &Expr)
    ensures { IsKnown expr.now }
{}
