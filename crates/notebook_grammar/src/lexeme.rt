//! The tokens of a text as the rules see them.
ghost use Rattle.std.specs.Prelude.{◌≡◌, ◌+◌, ◌^◌, ◌≤◌, ◌<◌, IfOk, length};
ghost use Rattle.notebook_grammar.specs.Lexemes as spec;

use crate::kind::Kind;
use crate::scan::{Form, longest};
use crate::words::kind_of_word;
use std::alloc::Global;
use value_types::{NoMemory, read_fixed, read_int};

/// A token as the rules see it. Places are numbers of bytes before them.
#[derive(Clone, Copy, Drop, Debug)]
pub struct Lexeme {
    pub at: u32,
    pub end: u32,
    pub kind: Kind,
    /// How many words CAVEAT the text has up to the end of this token.
    pub call: u32,
}

fn is_blank(byte: u8) -> bool
    ensures { result ≡ spec.is_blank byte }
{
    matches!(byte, b' ' | b'\t' | b'\r' | b'\n')
}

/// Whether a token of the form may be so long, or so great.
fn is_small(form: Form, text: &[u8]) -> bool
    ensures { result ≡ spec.is_small form text.now }
{
    match form {
        Form::Word => text.len() <= 32,
        Form::Whole => read_int(text).is_some(),
        Form::Decimal => read_fixed(text).is_some(),
        Form::Quoted | Form::Mark(_) => true,
    }
}

fn kind_of(form: Form, text: &[u8]) -> Kind
    ensures { result ≡ spec.kind_of form text.now }
{
    match form {
        Form::Word => kind_of_word(text),
        Form::Whole => Kind::Whole,
        Form::Decimal => Kind::Decimal,
        Form::Quoted => Kind::Quoted,
        Form::Mark(kind) => kind,
    }
}

/// The number of CAVEATs with a token more.
fn calls_with(kind: Kind, calls: u32) -> u32
    requires { calls + 1 < 2 ^ 32 }
    ensures { result ≡ spec.calls_with kind calls }
{
    match kind {
        Kind::Caveat => calls + 1,
        _ => calls,
    }
}

/// The token that begins at a place.
fn token_at(text: &[u8], at: usize, calls: u32) -> Option<Lexeme>
    requires within { at ≤ length text.now }
    requires short { length text.now < 2 ^ 32 }
    requires few { calls ≤ at }
    ensures { spec.IsTokenAt text.now at calls result }
{
    let rest = &text[at..];
    let found = longest(rest)?;
    let token = &rest[..found.length];
    if !is_small(found.form, token) {
        return None;
    }
    let kind = kind_of(found.form, token);
    Some(Lexeme {
        at: at as u32,
        end: (at + found.length) as u32,
        kind,
        call: calls_with(kind, calls),
    })
}

/// The place of the next byte that isn't blank, or the text's length.
fn skip_blanks(text: &[u8], from: usize) -> usize
    requires { from ≤ length text.now }
    ensures { spec.Skips text.now from result }
{
    let mut at = from;
    while at < text.len() && is_blank(text[at]) {
        at += 1;
    }
    at
}

/// The tokens of a text in order, and where none begins a stray one, which ends them.
pub fn lexemes(alloc: Global, text: &[u8]) -> Result<Vec<Lexeme>, NoMemory>
    requires { length text.now < 2 ^ 32 }
    ensures { IfOk result (λ ls. spec.LexemesFrom text.now 0 0 ls.items) }
{
    let mut made = Vec::new(alloc);
    let mut at = 0;
    let mut calls = 0;
    loop {
        at = skip_blanks(text, at);
        if at == text.len() {
            return Ok(made);
        }
        let Some(token) = token_at(text, at, calls) else {
            made.push(Lexeme {
                at: at as u32,
                end: at as u32,
                kind: Kind::Stray,
                call: calls,
            })?;
            return Ok(made);
        };
        made.push(token)?;
        at = token.end as usize;
        calls = token.call;
    }
}
