//! The script that a text is.
ghost use Rattle.std.specs.Prelude.{◌≡◌, ◌^◌, ◌<◌, MatchResult, length};
ghost use Rattle.notebook_grammar.specs.Texts.{IsRefused};
ghost use Rattle.script_parse.specs.Trees.{IsTreeOf};

use crate::act::act_on_script;
use crate::piece::ScriptPiece;
use crate::pops::pop_script;
use crate::script::Script;
use expr_parse::{ParseFault, Pieces, act_on, take};
use ll1_grammar::Step;
use notebook_grammar::{Action, Start, steps_of};
use std::alloc::Global;

/// The script that a text is.
///
/// `Syntax` exactly where the text isn't a script: `at` is the byte place of the first token that no
/// script goes on with, or that is one too many, or the text's length where it ends too early.
pub fn parse_script(alloc: Global, text: &str) -> Result<Script, ParseFault>
    requires { length text.now < 2 ^ 32 }
    ensures { MatchResult result (IsTreeOf text.now) (IsRefused Start.Script text.now) }
{
    let steps = steps_of(alloc, text, Start::Script)?;
    let mut pieces: Pieces<ScriptPiece> = Pieces::new(alloc);
    for step in steps.as_slice() {
        match *step {
            Step::Took(token) => take(alloc, text, &mut pieces, token)?,
            Step::Did(action) => match action {
                Action::Expr(action) => act_on(alloc, &mut pieces, action)?,
                Action::Script(action) => act_on_script(alloc, &mut pieces, action)?,
                Action::Select(_) => unreachable!(),
            },
        }
    }
    Ok(pop_script(&mut pieces))
}
