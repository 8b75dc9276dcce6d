//! Groups: GROUP BY, HAVING and the items over groups, and DISTINCT.
//!
//! Start at `group` and `distinct`, and read `specs/Groups.antt`: a group is the rows of one key, and what names stand for in
//! it. `specs/Group.antt` says what the steps give with marks, `specs/Plain.antt` what they give without them, and
//! `specs/Shown.antt` what they make of what is shown; `laws.rt` says how the three belong together.
#![tactic(auto)]

mod binding;
mod columns;
mod cutting;
mod distinct_rows;
mod grouping;
mod having;
mod items;
mod job;
mod keyed;
mod keys;
mod laws;
mod parts;
mod placing;
mod reading;
#[cfg(test)]
mod tests;
#[cfg(test)]
mod tests_having;
#[cfg(test)]
mod tests_many;
#[cfg(test)]
mod tests_marks;
mod uncertain;

pub use distinct_rows::distinct;
pub use grouping::group;
pub use keys::are_places;
pub use laws::{law_of_distinct, law_of_group};
