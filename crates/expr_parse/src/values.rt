//! What tokens say.
ghost use Rattle.std.specs.Prelude.{◌≡◌, false, OnOk, IfOk, IsTrue};
ghost use Rattle.value_types.specs.Names.{is_name};
ghost use Rattle.expr_parse.specs.Values as spec;
ghost use Rattle.expr_parse.specs.Pieces.{took};
ghost use Rattle.expr_parse.specs.Tops.{StandsIn};

use crate::piece::Piece;
use crate::pieces::Pieces;
use notebook_grammar::{Kind, Lexeme};
use std::alloc::Global;
use value_types::{ColumnType, Name, NoMemory, Words, read_fixed, read_int, read_name};

/// The name that a word is, in lower case.
fn name_of(word: &[u8]) -> Name
    requires { IsTrue (is_name (spec.lowered word.now)) }
    ensures { result ≡ spec.lowered word.now }
{
    let mut bytes = [0; 32];
    let name = &mut bytes[..word.len()];
    name.copy_from_slice(word);
    name.make_ascii_lowercase();
    read_name(name).unwrap()
}

/// The type that a word names.
fn type_of(word: &[u8]) -> ColumnType
    ensures { result ≡ spec.type_of word.now }
{
    if word.eq_ignore_ascii_case(b"bool") {
        ColumnType::Bool
    } else if word.eq_ignore_ascii_case(b"int") {
        ColumnType::Int
    } else if word.eq_ignore_ascii_case(b"fixed") {
        ColumnType::Fixed
    } else {
        ColumnType::Text
    }
}

/// The name of a type.
pub fn type_name(kind: ColumnType) -> Name
    ensures { result ≡ spec.type_name kind }
{
    match kind {
        ColumnType::Bool => name_of(b"bool"),
        ColumnType::Int => name_of(b"int"),
        ColumnType::Fixed => name_of(b"fixed"),
        ColumnType::Text => name_of(b"text"),
    }
}

fn whole_of(token: &[u8]) -> i64
    ensures { result ≡ spec.whole_of token.now }
{
    read_int(token).unwrap_or(0)
}

fn decimal_of(token: &[u8]) -> i64
    ensures { result ≡ spec.decimal_of token.now }
{
    read_fixed(token).unwrap_or(0)
}

/// A text in which each pair of quotes is one.
fn undoubled(alloc: Global, text: &str) -> Result<Words, NoMemory>
    ensures { IfOk result (λ words. words ≡ spec.undoubled false text.now) }
{
    let mut words = Words::new(alloc)?;
    let mut after = false;
    for c in text.chars() {
        if c == '\'' && after {
            after = false;
        } else {
            words.push_char(alloc, c)?;
            after = c == '\'';
        }
    }
    Ok(words)
}

/// A token puts its value down, or a CAVEAT its number; other words and marks put down nothing.
pub fn take<M: Drop>(
    alloc: Global,
    text: &str,
    pieces: &mut Pieces<M>,
    token: Lexeme,
) -> Result<(), NoMemory>
    requires { StandsIn text.now token }
    ensures { OnOk result (pieces.new ≡ took text.now token pieces.old) }
{
    let (at, end) = (token.at as usize, token.end as usize);
    let word = &text.as_bytes()[at..end];
    match token.kind {
        Kind::Name => pieces.push(Piece::Name(name_of(word))),
        Kind::TypeWord => pieces.push(Piece::TypeWord(type_of(word))),
        Kind::Whole => pieces.push(Piece::Whole(whole_of(word))),
        Kind::Decimal => pieces.push(Piece::Decimal(decimal_of(word))),
        Kind::Quoted => {
            let inside = undoubled(alloc, &text[at + 1..end - 1])?;
            pieces.push(Piece::Quoted(inside))
        }
        Kind::Caveat => pieces.push(Piece::Call(token.call)),
        _ => Ok(()),
    }
}
