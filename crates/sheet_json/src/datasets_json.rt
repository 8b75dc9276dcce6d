//! Spreadsheet commands on a dataset as a whole, as JSON.
ghost use Rattle.std.specs.Prelude.{IfOk};
ghost use Rattle.serde_json.specs.View.{view};
ghost use Rattle.sheet_commands.specs.declared.command.Command.TheVariants as command;
ghost use Rattle.sheet_json.specs.Commands.{command_of};
ghost use Rattle.json_fields.specs.Written.{IsJsonOf};

use crate::command_fields::command_fields;
use json_fields::ToJson;
use serde_json::{Value as Json, put};
use std::alloc::Global;
use value_types::{Name, NoMemory};

/// `rename_dataset` as JSON.
pub fn rename_dataset_json(alloc: Global, dataset: &Name, to: &Name) -> Result<Json, NoMemory>
    ensures { IfOk result (λ json.
        IsJsonOf command_of 4 (command.RenameDataset dataset.now to.now) (view json)) }
{
    let dataset = dataset.to_json(alloc)?;
    let to = to.to_json(alloc)?;
    let mut fields = command_fields(alloc, "rename_dataset", dataset)?;
    put(&mut fields, alloc, "to", to)?;
    Ok(Json::Object(fields))
}

/// `copy_dataset` as JSON.
pub fn copy_dataset_json(alloc: Global, dataset: &Name, to: &Name) -> Result<Json, NoMemory>
    ensures { IfOk result (λ json.
        IsJsonOf command_of 4 (command.CopyDataset dataset.now to.now) (view json)) }
{
    let dataset = dataset.to_json(alloc)?;
    let to = to.to_json(alloc)?;
    let mut fields = command_fields(alloc, "copy_dataset", dataset)?;
    put(&mut fields, alloc, "to", to)?;
    Ok(Json::Object(fields))
}

/// `drop_dataset` as JSON.
pub fn drop_dataset_json(alloc: Global, dataset: &Name) -> Result<Json, NoMemory>
    ensures { IfOk result (λ json.
        IsJsonOf command_of 4 (command.DropDataset dataset.now) (view json)) }
{
    let dataset = dataset.to_json(alloc)?;
    let fields = command_fields(alloc, "drop_dataset", dataset)?;
    Ok(Json::Object(fields))
}
