//! What a SELECT is built from, beside the pieces of expressions.
use crate::columns::{ColumnNames, OrderKeys};
use crate::cores::{CoreItems, Cores};
use crate::select::Select;
use crate::tables::{Joins, TableRef};
use expr_lang::Expr;

/// A part of a SELECT that was read and is not yet in a larger one.
#[derive(Drop)]
pub enum SelectPiece {
    /// Whether DISTINCT stands there.
    Distinct(bool),
    Items(CoreItems),
    Table(TableRef),
    Joins(Joins),
    /// What WHERE or HAVING asks, if it stands there.
    Condition(Option<Expr>),
    Columns(ColumnNames),
    Cores(Cores),
    Keys(OrderKeys),
    Limit(Option<u64>),
    Select(Select),
}
