//! Groups by the places of their rows, and groups that HAVING has looked at.
use relations::Test;
use value_types::{ListOf, Values};

/// The rows of one key.
#[derive(Drop)]
pub struct Lot {
    pub key: Values,
    /// Whether it is certain that a row is in it.
    pub sure: bool,
    /// The places of its rows among those of the relation, counted from 0.
    pub rows: ListOf<usize>,
}

/// Lots in ascending order of key.
pub type Lots = ListOf<Lot>;

/// A lot, and what HAVING says of it.
#[derive(Drop)]
pub struct TestedLot {
    pub lot: Lot,
    pub test: Test,
}
