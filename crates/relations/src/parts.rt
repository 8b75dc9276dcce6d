//! The parts of a relation, and what the steps are told.
use dataset_types::Rows;
use expr_lang::Expr;
use expr_meaning::Scope;
use value_types::{ListOf, Name};

/// The four parts of a relation.
#[derive(Drop)]
pub struct RelParts {
    pub columns: Scope,
    pub rows: Rows,
    /// Whether it may lack rows or have others.
    pub is_open: bool,
    /// Whether the order of its rows is uncertain.
    pub is_loose: bool,
}

/// An output column: what it is in each row, and its name.
#[derive(Drop)]
pub struct Item {
    pub expr: Expr,
    pub name: Name,
}

/// The output columns, in order.
pub type Items = ListOf<Item>;

/// A column to sort by.
#[derive(Clone, Copy)]
pub struct SortKey {
    /// Its place, counted from 1.
    pub column: u32,
    pub descending: bool,
}

/// The columns to sort by, the first of them before the others.
pub type SortKeys = ListOf<SortKey>;

/// Places of columns, counted from 1.
pub type ColumnRefs = ListOf<u32>;
