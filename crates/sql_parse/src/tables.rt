//! Tables, and how they are joined.
use expr_lang::Expr;
use value_types::{ListOf, Name};

/// A dataset under a name: the one that AS gives it, else its own.
#[derive(Drop)]
pub struct TableRef {
    pub dataset: Name,
    pub qualifier: Name,
}

/// `JOIN table ON on`, or `LEFT JOIN table ON on`.
#[derive(Drop)]
pub struct JoinPart {
    pub left: bool,
    pub table: TableRef,
    pub on: Expr,
}

/// Joins, in order.
pub type Joins = ListOf<JoinPart>;
