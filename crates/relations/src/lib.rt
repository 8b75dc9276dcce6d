//! Relations, on which the steps of SELECT work, and what these steps have in common.
//!
//! Start at `Rel`, whose type keeps the rules and limits of a relation, and at `specs/Batches.antt`: a step over rows is what
//! it makes of each of them, in order. `specs/Plain.antt` and `specs/Shown.antt` say what a relation is without its marks
//! and what is shown of it. The steps themselves are not here, but in `rel_ops` and beside it.
#![tactic(auto)]

mod batch;
mod bound_row;
mod condition;
mod from_table;
mod into_table;
mod laws;
mod limits;
mod parts;
mod places;
mod rel;
#[cfg(test)]
mod tests;

pub use batch::Batch;
pub use bound_row::{bind, bind_again, bind_more};
pub use condition::{Test, test_row};
pub use from_table::qualified_columns;
pub use laws::law_of_types;
pub use parts::{ColumnRefs, Item, Items, RelParts, SortKey, SortKeys};
pub use places::ColumnPlaces;
pub use rel::Rel;
