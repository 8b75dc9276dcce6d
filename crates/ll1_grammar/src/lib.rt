//! Grammars that one token ahead decides, as data, and what is true of every one of them.
//!
//! A table of rules is a grammar (`specs/Table.antt`), a short computed test says whether one token
//! ahead decides it (`specs/Test.antt`), and then its texts have one derivation each, a parser stops
//! at the one right place, and postfix actions build a tree. Start at `specs/Grammar.antt`, then read
//! `src/laws.rt`. There is no parser here: a crate with a table writes its own, over these laws.
#![tactic(auto)]

mod item;
mod laws;
mod symbol;
#[cfg(test)]
mod tests;

pub use item::{Bounded, Item, fits};
pub use laws::{
    law_of_alternatives, law_of_fronts, law_of_one_derivation, law_of_one_place, law_of_readers,
    law_of_short_sentences, law_of_steps, law_of_the_place, law_of_the_test, law_of_trees,
};
pub use symbol::{Step, Symbol};
