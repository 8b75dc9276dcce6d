//! Lists of names in which each stands once.
//!
//! A tree of a text names datasets, variables and builders, some of them more than once. Which it names is
//! said by the list of them all, in the text's order, and `nub`; the code adds name after name with `add_name`.
//! That both are the same is `law_of_adding`.
#![tactic(auto)]

mod add;
mod laws;
#[cfg(test)]
mod tests;

pub use add::add_name;
pub use laws::law_of_adding;
