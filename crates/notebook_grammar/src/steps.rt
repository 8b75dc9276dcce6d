//! The steps of a text's derivation.
ghost use Rattle.std.specs.Prelude.{◌≡◌, ◌^◌, ◌<◌, ◌≤◌, MatchResult, length};
ghost use Rattle.notebook_grammar.specs.Texts as spec;

use crate::fault::ParseFault;
use crate::lexeme::{Lexeme, lexemes};
use crate::machine::{Steps, Stopped, run};
use crate::start::Start;
use std::alloc::Global;

/// The byte place of a lexeme, or the text's length past the last.
fn place_of(lexemes: &[Lexeme], at: usize, end: u32) -> u32
    ensures { result ≡ spec.place_of lexemes.now at end }
{
    match lexemes.get(at) {
        Some(lexeme) => lexeme.at,
        None => end,
    }
}

/// The steps of a text, from which its tree is built.
///
/// `Syntax` exactly where the text isn't of the language. `at` is the byte place of the first token
/// that no sentence goes on with, or that is one too many in its expression, or the text's length
/// where it ends too early. A place where no token begins counts as a token.
pub fn steps_of(alloc: Global, text: &str, start: Start) -> Result<Steps, ParseFault>
    requires { length text.now < 2 ^ 32 }
    ensures { MatchResult result (spec.AreSteps start text.now) (spec.IsRefused start text.now) }
{
    let bytes = text.as_bytes();
    let lexemes = lexemes(alloc, bytes)?;
    match run(alloc, &lexemes, start) {
        Ok(steps) => Ok(steps),
        Err(Stopped::NoMemory) => Err(ParseFault::NoMemory),
        Err(Stopped::At(at)) => Err(ParseFault::Syntax {
            at: place_of(&lexemes, at, bytes.len() as u32),
        }),
    }
}
