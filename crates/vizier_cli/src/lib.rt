//! The top call of the program: its words, and all that it does.
//!
//! Start at `vizier_serial`. The program crate `vizier` makes the real standard input, standard output
//! and folder, calls it, and ends with the number of its status.
#![tactic(auto)]

mod command;
mod opening;
mod status;
#[cfg(test)]
mod tests;
#[cfg(test)]
mod tests_session;
mod top;

pub use status::Status;
pub use top::vizier_serial;
