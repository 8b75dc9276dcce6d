//! Columns of GROUP BY and ORDER BY.
use value_types::{ListOf, Name};

/// A column of GROUP BY.
#[derive(Drop)]
pub struct ColumnName {
    pub qualifier: Option<Name>,
    pub name: Name,
}

/// Columns, in order.
pub type ColumnNames = ListOf<ColumnName>;

/// A column of ORDER BY.
#[derive(Drop)]
pub struct OrderKey {
    pub name: Name,
    pub descending: bool,
}

/// Keys, the first that decides before the others.
pub type OrderKeys = ListOf<OrderKey>;
