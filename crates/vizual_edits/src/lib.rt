//! What a spreadsheet command writes, over what its reads answer.
//!
//! Start at `apply`, and read `specs/Commands.antt` for what each command gives and reads. What it makes of a dataset is not here,
//! but in `column_edits` and `row_edits`.
#![tactic(auto)]

mod applying;
mod editing;
mod laws;
mod reading;
mod renaming;
#[cfg(test)]
mod tests;
#[cfg(test)]
mod tests_commands;
#[cfg(test)]
mod tests_doubt;
#[cfg(test)]
mod tests_errors;
#[cfg(test)]
mod tests_marks;
#[cfg(test)]
mod tests_shown;

pub use applying::apply;
pub use laws::law_of_commands;
pub use reading::There;
