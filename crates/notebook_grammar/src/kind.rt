//! Kinds of tokens, as the rules tell them apart.
ghost use Rattle.std.specs.Prelude.{◌≡◌};
ghost use Rattle.notebook_grammar.specs.Kinds.{code_of};

/// What a token is to the rules. The marks and words are named by their texts.
#[derive(Clone, Copy, Drop, Debug)]
pub enum Kind {
    /// A word that is neither reserved nor a type.
    Name,
    /// `bool`, `int`, `fixed` or `text`.
    TypeWord,
    /// A number without a point.
    Whole,
    /// A number with a point.
    Decimal,
    /// A text in single quotes.
    Quoted,
    Equal,
    NotEqual,
    Less,
    AtMost,
    Greater,
    AtLeast,
    Bars,
    Plus,
    Minus,
    Star,
    Slash,
    Percent,
    Point,
    Comma,
    Open,
    Close,
    Semicolon,
    OpenBrace,
    CloseBrace,
    Abs,
    All,
    And,
    As,
    Asc,
    By,
    Case,
    Cast,
    Caveat,
    Coalesce,
    Count,
    Desc,
    Distinct,
    Drop,
    Else,
    Emit,
    End,
    Exists,
    False,
    For,
    From,
    Group,
    Having,
    If,
    In,
    Inner,
    Is,
    Join,
    Left,
    Length,
    Like,
    Limit,
    Max,
    Min,
    Not,
    Null,
    On,
    Or,
    Order,
    Outer,
    Print,
    Rows,
    Select,
    Sum,
    Table,
    Then,
    To,
    Trim,
    True,
    Union,
    When,
    Where,
    While,
    Write,
    /// A place where no token begins; no rule has it.
    Stray,
}

/// The number of a kind: its place in the list, from 0.
pub fn code_of(kind: Kind) -> u8
    ensures { result ≡ code_of kind }
{
    kind as u8
}
