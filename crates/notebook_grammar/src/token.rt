//! The tokens of a text.
ghost use Rattle.std.specs.Prelude.{◌≡◌, ◌^◌, ◌<◌, MatchResult, length};
ghost use Rattle.notebook_grammar.specs.Tokens as spec;

use crate::fault::ParseFault;
use crate::kind::Kind;
use crate::lexeme::lexemes;
use std::alloc::Global;
use value_types::ListOf;

/// What a token is: a word, reserved or not, a number, a text in quotes or a mark.
#[derive(Clone, Copy, Drop, Debug)]
pub enum TokenKind {
    Word,
    Number,
    Quoted,
    Mark,
}

/// A token: the bytes of its text from `at` to `end`.
#[derive(Clone, Copy, Drop, Debug)]
pub struct Token {
    pub at: u32,
    pub end: u32,
    pub kind: TokenKind,
}

/// Tokens in the order of their text.
pub type Tokens = ListOf<Token>;

/// What a kind is as a token; none where no token begins.
fn token_kind(kind: Kind) -> Option<TokenKind>
    ensures { result ≡ spec.token_kind kind }
{
    match kind {
        Kind::Stray => None,
        Kind::Quoted => Some(TokenKind::Quoted),
        Kind::Whole | Kind::Decimal => Some(TokenKind::Number),
        Kind::Equal
        | Kind::NotEqual
        | Kind::Less
        | Kind::AtMost
        | Kind::Greater
        | Kind::AtLeast
        | Kind::Bars
        | Kind::Plus
        | Kind::Minus
        | Kind::Star
        | Kind::Slash
        | Kind::Percent
        | Kind::Point
        | Kind::Comma
        | Kind::Open
        | Kind::Close
        | Kind::Semicolon
        | Kind::OpenBrace
        | Kind::CloseBrace => Some(TokenKind::Mark),
        _ => Some(TokenKind::Word),
    }
}

/// The tokens of a text: at each place the longest complete one, blanks between them left out.
///
/// `Syntax` exactly where a place is reached at which no token begins: `at` is the first such.
pub fn tokens(alloc: Global, text: &str) -> Result<Tokens, ParseFault>
    requires { length text.now < 2 ^ 32 }
    ensures { MatchResult result (spec.AreTokens text.now) (spec.IsRefused text.now) }
{
    let mut made = ListOf::new(alloc)?;
    for lexeme in &lexemes(alloc, text.as_bytes())? {
        match token_kind(lexeme.kind) {
            Some(kind) => made.push(
                alloc,
                Token {
                    at: lexeme.at,
                    end: lexeme.end,
                    kind,
                },
            )?,
            None => return Err(ParseFault::Syntax { at: lexeme.at }),
        }
    }
    Ok(made)
}
