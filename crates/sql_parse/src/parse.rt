//! The SELECT that a text is.
ghost use Rattle.std.specs.Prelude.{◌≡◌, ◌^◌, ◌<◌, MatchResult, length};
ghost use Rattle.notebook_grammar.specs.Texts.{IsRefused};
ghost use Rattle.sql_parse.specs.Trees.{IsTreeOf};

use crate::act::act_on_select;
use crate::piece::SelectPiece;
use crate::pops::pop_select;
use crate::select::Select;
use expr_parse::{ParseFault, Pieces, act_on, take};
use ll1_grammar::Step;
use notebook_grammar::{Action, Start, steps_of};
use std::alloc::Global;

/// The SELECT that a text is.
///
/// `Syntax` exactly where the text isn't a SELECT: `at` is the byte place of the first token that no
/// SELECT goes on with, or that is one too many, or the text's length where it ends too early.
pub fn parse_select(alloc: Global, text: &str) -> Result<Select, ParseFault>
    requires { length text.now < 2 ^ 32 }
    ensures { MatchResult result (IsTreeOf text.now) (IsRefused Start.Select text.now) }
{
    let steps = steps_of(alloc, text, Start::Select)?;
    let mut pieces: Pieces<SelectPiece> = Pieces::new(alloc);
    for step in steps.as_slice() {
        match *step {
            Step::Took(token) => take(alloc, text, &mut pieces, token)?,
            Step::Did(action) => match action {
                Action::Expr(action) => act_on(alloc, &mut pieces, action)?,
                Action::Select(action) => act_on_select(alloc, &mut pieces, action)?,
                Action::Script(_) => unreachable!(),
            },
        }
    }
    Ok(pop_select(&mut pieces))
}
