//! A script as a whole.
use crate::stmt::Block;
use dataset_types::Columns;
use value_types::{ListOf, Name};

/// The tables that a script builds, and its statements.
#[derive(Drop)]
pub struct Script {
    pub builders: Builders,
    pub body: Block,
}

/// `table name (columns);`
#[derive(Drop)]
pub struct Builder {
    pub name: Name,
    pub columns: Columns,
}

/// Builders, in order.
pub type Builders = ListOf<Builder>;
