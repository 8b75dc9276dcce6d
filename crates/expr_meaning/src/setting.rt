//! Where an expression stands, and what it gives over a group.
use crate::bindings::Bindings;
use dataset_types::Picks;
use value_types::Values;

/// Where an expression stands: over a row, and in a grouped query over the rows of a group.
#[derive(Clone, Copy)]
pub struct Setting<'rows, 'picks> {
    /// What names stand for outside of aggregates.
    pub row: &'rows Bindings,
    /// None where the query isn't grouped; names in an aggregate stand for the bindings of each of these rows.
    pub group: Option<&'rows [Bindings]>,
    /// Which rows are in the group isn't certain. Without a group it says nothing.
    pub marked: bool,
    /// What is chosen at the calls of CAVEAT of the cell.
    pub picks: &'picks Picks,
    pub cell: u32,
}

/// The values of an operand over the rows of a group.
#[derive(Drop)]
pub(crate) struct Operands {
    pub values: Values,
    pub marked: bool,
}
