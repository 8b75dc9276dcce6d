//! What is the same for all groups of a relation.
use dataset_types::Picks;
use expr_meaning::Scope;
use relations::{ColumnPlaces, Rel};

/// What HAVING and the items are told beside the group.
#[derive(Clone, Copy)]
pub struct Job<'a> {
    /// The relation that is grouped.
    pub rel: &'a Rel,
    /// Its columns with their places.
    pub column_places: &'a ColumnPlaces,
    /// The columns of the key, each once.
    pub columns: &'a Scope,
    /// The places of the key.
    pub places: &'a [u32],
    /// Whether it is uncertain which rows are in a group.
    pub uncertain: bool,
    pub picks: &'a Picks,
    pub cell: u32,
}
