//! The steps of SELECT over one relation, and UNION ALL.
//!
//! Start at `filter`, `project`, `sort`, `limit` and `union_all`, and read the file of the same step in `specs/`: each says what
//! the step gives with marks, what it gives without them, and what it makes of what is shown. `laws.rt` says how the three belong
//! together. Joins and groups are not here.
#![tactic(auto)]

mod filtering;
mod laws;
mod limiting;
mod projecting;
mod sorting;
#[cfg(test)]
mod tests;
#[cfg(test)]
mod tests_marks;
mod uniting;

pub use filtering::{filter, filter_table};
pub use laws::{law_of_filter, law_of_limit, law_of_project, law_of_sort, law_of_union};
pub use limiting::limit;
pub use projecting::{item_columns, project};
pub use sorting::{any_marked_key, is_sorted, sort};
pub use uniting::{types_agree, union_all};
