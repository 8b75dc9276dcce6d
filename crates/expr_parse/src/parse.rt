//! The expression that a text is.
ghost use Rattle.std.specs.Prelude.{◌≡◌, ◌^◌, ◌<◌, MatchResult, length};
ghost use Rattle.notebook_grammar.specs.Texts.{IsRefused};
ghost use Rattle.expr_parse.specs.Trees.{IsTreeOf};

use crate::act::act_on;
use crate::pieces::Pieces;
use crate::values::take;
use expr_lang::Expr;
use ll1_grammar::Step;
use notebook_grammar::{Action, ParseFault, Start, steps_of};
use std::alloc::Global;
use std::convert::Infallible;

/// The expression that a text is.
///
/// `Syntax` exactly where the text isn't an expression: `at` is the byte place of the first token that
/// no expression goes on with, or that is one too many, or the text's length where it ends too early.
pub fn parse_expr(alloc: Global, text: &str) -> Result<Expr, ParseFault>
    requires { length text.now < 2 ^ 32 }
    ensures { MatchResult result (IsTreeOf text.now) (IsRefused Start.Expression text.now) }
{
    let steps = steps_of(alloc, text, Start::Expression)?;
    let mut pieces: Pieces<Infallible> = Pieces::new(alloc);
    for step in steps.as_slice() {
        match *step {
            Step::Took(token) => take(alloc, text, &mut pieces, token)?,
            Step::Did(action) => match action {
                Action::Expr(action) => act_on(alloc, &mut pieces, action)?,
                _other => unreachable!(),
            },
        }
    }
    Ok(pieces.pop_tree())
}
