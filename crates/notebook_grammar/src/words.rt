//! Reserved words, and the words of types.
ghost use Rattle.std.specs.Prelude.{◌≡◌, map};
ghost use Rattle.notebook_grammar.specs.Words as spec;

use crate::kind::Kind;

/// A word that is no name, in lower case.
#[derive(Clone, Copy, Drop)]
pub struct Reserved {
    pub text: &'static [u8],
    pub kind: Kind,
}

macro_rules! words {
    ($($text:literal $kind:ident)*) => { &[$(Reserved { text: $text, kind: Kind::$kind }),*] };
}

const TWO: &[Reserved] = words![
    b"as" As
    b"by" By
    b"if" If
    b"in" In
    b"is" Is
    b"on" On
    b"or" Or
    b"to" To
];

const THREE: &[Reserved] = words![
    b"abs" Abs
    b"all" All
    b"and" And
    b"asc" Asc
    b"end" End
    b"for" For
    b"int" TypeWord
    b"max" Max
    b"min" Min
    b"not" Not
    b"sum" Sum
];

const FOUR: &[Reserved] = words![
    b"bool" TypeWord
    b"case" Case
    b"cast" Cast
    b"desc" Desc
    b"drop" Drop
    b"else" Else
    b"emit" Emit
    b"from" From
    b"join" Join
    b"left" Left
    b"like" Like
    b"null" Null
    b"rows" Rows
    b"text" TypeWord
    b"then" Then
    b"trim" Trim
    b"true" True
    b"when" When
];

const FIVE: &[Reserved] = words![
    b"count" Count
    b"false" False
    b"fixed" TypeWord
    b"group" Group
    b"inner" Inner
    b"limit" Limit
    b"order" Order
    b"outer" Outer
    b"print" Print
    b"table" Table
    b"union" Union
    b"where" Where
    b"while" While
    b"write" Write
];

const SIX: &[Reserved] = words![
    b"caveat" Caveat
    b"exists" Exists
    b"having" Having
    b"length" Length
    b"select" Select
];

const SEVEN: &[Reserved] = words![];

const EIGHT: &[Reserved] = words![
    b"coalesce" Coalesce
    b"distinct" Distinct
];

fn of_length(length: usize) -> &'static [Reserved]
    ensures { map spec.shown result.now ≡ spec.of_length length }
{
    match length {
        2 => TWO,
        3 => THREE,
        4 => FOUR,
        5 => FIVE,
        6 => SIX,
        7 => SEVEN,
        8 => EIGHT,
        _ => &[],
    }
}

fn is_same_word(a: &[u8], b: &[u8]) -> bool
    ensures { result ≡ spec.same_word a.now b.now }
{
    a.eq_ignore_ascii_case(b)
}

/// The kind of a word, in any case of letters: its own where it is reserved, else a name.
pub fn kind_of_word(word: &[u8]) -> Kind
    ensures { result ≡ spec.kind_of_word word.now }
{
    for reserved in of_length(word.len()) {
        if is_same_word(word, reserved.text) {
            return reserved.kind;
        }
    }
    Kind::Name
}
