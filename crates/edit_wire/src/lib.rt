//! Edit lines: what a line of JSON says, and the line that says an edit.
//!
//! Start at `edit_of`; `specs/Wire.antt` says which edit a line is, and `docs/FORMATS.md`, "Edit lines",
//! says it in words. What the fields of its objects hold is not here, but in `json_fields`, and spreadsheet
//! commands are in `sheet_json`. Whether an edit is accepted is `version_tree`'s.
#![tactic(auto)]

mod edit;
mod edit_json;
mod edit_line;
mod load;
mod load_json;
mod make;
mod make_json;
mod picks;
mod sql;
#[cfg(test)]
mod tests;
#[cfg(test)]
mod tests_commands;
#[cfg(test)]
mod tests_loads;
#[cfg(test)]
mod tests_picks;
#[cfg(test)]
mod tests_text;

pub use edit::{Edit, EditCell, EditFault, EditKind};
pub use edit_json::line_of;
pub use edit_line::edit_of;
pub use picks::{PicksFault, picks_of};
