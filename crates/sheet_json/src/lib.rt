//! Spreadsheet commands as JSON objects, read and written.
//!
//! Start at `command_of`, which reads the command that an object is, and `command_json`, which writes the
//! object of a command; `specs/Commands.antt` says which command an object is, and docs/FORMATS.md,
//! "Spreadsheet commands", says it in words. What the fields hold is not here, but in `json_fields`; what
//! a command does is in `vizual_edits`.
#![tactic(auto)]

mod column_commands;
mod columns_json;
mod command_fields;
mod commands;
mod commands_json;
mod dataset_commands;
mod datasets_json;
mod row_commands;
mod rows_json;
#[cfg(test)]
mod tests;

pub use commands::command_of;
pub use commands_json::command_json;
