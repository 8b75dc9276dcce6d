//! Expressions.
use crate::ops::{BinaryOp, UnaryOp};
use sqlite_items::Boxed;
use value_types::{ColumnType, ListOf, Name, Value, Words};

/// An expression. Parentheses leave no trace in it.
#[cycle(expr)]
#[derive(Drop)]
pub enum Expr {
    Literal(Value),
    /// A column or a variable.
    Column {
        qualifier: Option<Name>,
        name: Name,
    },
    Unary(UnaryOp, Boxed<Expr>),
    Binary(BinaryOp, Boxed<Expr>, Boxed<Expr>),
    /// `of IS NULL`, or `of IS NOT NULL`.
    IsNull {
        of: Boxed<Expr>,
        negated: bool,
    },
    /// `of LIKE pattern`, or `of NOT LIKE pattern`.
    Like {
        of: Boxed<Expr>,
        pattern: Boxed<Expr>,
        negated: bool,
    },
    /// `of IN (list)`, or `of NOT IN (list)`.
    OneOf {
        of: Boxed<Expr>,
        list: Exprs,
        negated: bool,
    },
    Case {
        arms: Arms,
        otherwise: Option<Boxed<Expr>>,
    },
    Coalesce(Exprs),
    Cast {
        of: Boxed<Expr>,
        kind: ColumnType,
    },
    /// A value with a caveat. `call` is the number of the CAVEAT in the whole text, counted from 1.
    Caveat {
        of: Boxed<Expr>,
        message: Words,
        call: u32,
    },
    /// `COUNT(*)`
    CountAll,
    Count(Boxed<Expr>),
    Sum(Boxed<Expr>),
    Min(Boxed<Expr>),
    Max(Boxed<Expr>),
}

/// `WHEN condition THEN answer`.
#[cycle(expr)]
#[derive(Drop)]
pub struct Arm {
    pub condition: Expr,
    pub answer: Expr,
}

/// Expressions, in order.
pub type Exprs = ListOf<Expr>;

/// The arms of a CASE, in order.
pub type Arms = ListOf<Arm>;
