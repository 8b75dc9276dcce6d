//! Spreadsheet cells, read: the dataset, the word, and the fields that the word has.
ghost use Rattle.std.specs.Prelude.{◌≡◌, IfOk, IfSome};
ghost use Rattle.serde_json.specs.View.{view};
ghost use Rattle.sheet_json.specs.Commands as spec;
ghost use Rattle.sheet_json.specs.Plain.{IsPlainCommand};

use crate::column_commands::column_command;
use crate::dataset_commands::dataset_command;
use crate::row_commands::row_command;
use json_fields::{field, text_field};
use serde_json::Value as Json;
use sheet_commands::Command;
use std::alloc::Global;
use value_types::{Name, NoMemory};

fn command_named(
    alloc: Global,
    word: &str,
    dataset: &Name,
    json: &Json,
) -> Result<Option<Command>, NoMemory>
    ensures { IfOk result (λ found.
        found ≡ spec.command_named word.now dataset.now (view json.now)) }
{
    if let Some(command) = column_command(alloc, word, dataset, json)? {
        return Ok(Some(command));
    }
    if let Some(command) = row_command(alloc, word, dataset, json)? {
        return Ok(Some(command));
    }
    dataset_command(alloc, word, dataset, json)
}

#[tactic(auto, unfolding(crate::specs::Commands::command_of))]
fn command_in(alloc: Global, json: &Json) -> Result<Option<Command>, NoMemory>
    ensures { IfOk result (λ found. found ≡ spec.command_of (view json.now)) }
{
    let Some(word) = text_field(json, "vizual") else {
        return Ok(None);
    };
    let Some(dataset) = field(alloc, json, "dataset")? else {
        return Ok(None);
    };
    command_named(alloc, word, &dataset, json)
}

/// The command of the spreadsheet cell that an object is. Each such command has an object that
/// `command_json` writes.
///
/// - Source: docs/FORMATS.md, "Spreadsheet commands".
pub fn command_of(alloc: Global, json: &Json) -> Result<Option<Command>, NoMemory>
    ensures value { IfOk result (λ found. found ≡ spec.command_of (view json.now)) }
    ensures plain { IfOk result (λ found. IfSome found IsPlainCommand) }
{
    command_in(alloc, json)
}
