//! Types of expressions.
use value_types::ColumnType;

/// The type of an expression. That of NULL alone goes with every other.
#[derive(Clone, Copy, Debug)]
pub enum ExprType {
    Null,
    Of(ColumnType),
}
