//! What a tree is built from.
use expr_lang::{Arms, Expr, Exprs};
use value_types::{ColumnType, Name, Words};

/// What was read of a text and is not yet part of a larger tree. `M` are the pieces of the language in
/// which expressions stand.
#[derive(Drop)]
pub enum Piece<M> {
    Name(Name),
    /// The word of a type.
    TypeWord(ColumnType),
    /// A number without a point.
    Whole(i64),
    /// A number with a point, in ten-thousandths.
    Decimal(i64),
    /// A text, without its quotes.
    Quoted(Words),
    /// The number of a CAVEAT in the whole text, counted from 1.
    Call(u32),
    Tree(Expr),
    List(Exprs),
    /// The arms of a CASE.
    Arms(Arms),
    /// A piece of the language around.
    Other(M),
}
