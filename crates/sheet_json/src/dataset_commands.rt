//! Spreadsheet commands on a dataset as a whole, read.
ghost use Rattle.std.specs.Prelude.{◌≡◌, IfOk};
ghost use Rattle.serde_json.specs.View.{view};
ghost use Rattle.sheet_json.specs.DatasetCommands as spec;

use json_fields::{field, has_members};
use serde_json::Value as Json;
use sheet_commands::Command;
use std::alloc::Global;
use value_types::{Name, NoMemory};

fn rename_dataset_of(
    alloc: Global,
    dataset: &Name,
    json: &Json,
) -> Result<Option<Command>, NoMemory>
    ensures { IfOk result (λ found. found ≡ spec.rename_dataset_of dataset.now (view json.now)) }
{
    if !has_members(json, 3) {
        return Ok(None);
    }
    let Some(to) = field(alloc, json, "to")? else {
        return Ok(None);
    };
    Ok(Some(Command::RenameDataset {
        dataset: dataset.copy(),
        to,
    }))
}

fn copy_dataset_of(alloc: Global, dataset: &Name, json: &Json) -> Result<Option<Command>, NoMemory>
    ensures { IfOk result (λ found. found ≡ spec.copy_dataset_of dataset.now (view json.now)) }
{
    if !has_members(json, 3) {
        return Ok(None);
    }
    let Some(to) = field(alloc, json, "to")? else {
        return Ok(None);
    };
    Ok(Some(Command::CopyDataset {
        dataset: dataset.copy(),
        to,
    }))
}

fn drop_dataset_of(dataset: &Name, json: &Json) -> Option<Command>
    ensures { result ≡ spec.drop_dataset_of dataset.now (view json.now) }
{
    if !has_members(json, 2) {
        return None;
    }
    Some(Command::DropDataset {
        dataset: dataset.copy(),
    })
}

/// The command that a word asks for, where it is one on a dataset as a whole.
pub fn dataset_command(
    alloc: Global,
    word: &str,
    dataset: &Name,
    json: &Json,
) -> Result<Option<Command>, NoMemory>
    ensures { IfOk result (λ found.
        found ≡ spec.dataset_command word.now dataset.now (view json.now)) }
{
    match word {
        "rename_dataset" => rename_dataset_of(alloc, dataset, json),
        "copy_dataset" => copy_dataset_of(alloc, dataset, json),
        "drop_dataset" => Ok(drop_dataset_of(dataset, json)),
        _ => Ok(None),
    }
}
