//! Spreadsheet commands on the columns of a dataset, as JSON.
ghost use Rattle.std.specs.Prelude.{IfOk, ◌≤◌, length};
ghost use Rattle.serde_json.specs.View.{view};
ghost use Rattle.sheet_commands.specs.declared.command.Command.TheVariants as command;
ghost use Rattle.sheet_json.specs.Commands.{command_of};
ghost use Rattle.json_fields.specs.Written.{IsJsonOf};

use crate::command_fields::command_fields;
use json_fields::{ToJson, each_json, type_word};
use serde_json::{Value as Json, put};
use sheet_commands::DistinctNames;
use std::alloc::Global;
use value_types::{ColumnType, Name, NoMemory, Words};

/// `insert_column` as JSON.
pub fn insert_column_json(
    alloc: Global,
    dataset: &Name,
    name: &Name,
    kind: ColumnType,
    at: u32,
) -> Result<Json, NoMemory>
    ensures { IfOk result (λ json.
        IsJsonOf command_of 4 (command.InsertColumn dataset.now name.now kind at) (view json)) }
{
    let dataset = dataset.to_json(alloc)?;
    let name = name.to_json(alloc)?;
    let word = type_word(kind);
    let mut fields = command_fields(alloc, "insert_column", dataset)?;
    put(&mut fields, alloc, "name", name)?;
    put(&mut fields, alloc, "type", Json::try_from_str(alloc, word)?)?;
    put(&mut fields, alloc, "at", Json::from(at))?;
    Ok(Json::Object(fields))
}

/// `delete_column` as JSON.
pub fn delete_column_json(alloc: Global, dataset: &Name, name: &Name) -> Result<Json, NoMemory>
    ensures { IfOk result (λ json.
        IsJsonOf command_of 4 (command.DeleteColumn dataset.now name.now) (view json)) }
{
    let dataset = dataset.to_json(alloc)?;
    let name = name.to_json(alloc)?;
    let mut fields = command_fields(alloc, "delete_column", dataset)?;
    put(&mut fields, alloc, "name", name)?;
    Ok(Json::Object(fields))
}

/// `rename_column` as JSON.
pub fn rename_column_json(
    alloc: Global,
    dataset: &Name,
    name: &Name,
    to: &Name,
) -> Result<Json, NoMemory>
    ensures { IfOk result (λ json.
        IsJsonOf command_of 4 (command.RenameColumn dataset.now name.now to.now) (view json)) }
{
    let dataset = dataset.to_json(alloc)?;
    let name = name.to_json(alloc)?;
    let to = to.to_json(alloc)?;
    let mut fields = command_fields(alloc, "rename_column", dataset)?;
    put(&mut fields, alloc, "name", name)?;
    put(&mut fields, alloc, "to", to)?;
    Ok(Json::Object(fields))
}

/// `move_column` as JSON.
pub fn move_column_json(
    alloc: Global,
    dataset: &Name,
    name: &Name,
    at: u32,
) -> Result<Json, NoMemory>
    ensures { IfOk result (λ json.
        IsJsonOf command_of 4 (command.MoveColumn dataset.now name.now at) (view json)) }
{
    let dataset = dataset.to_json(alloc)?;
    let name = name.to_json(alloc)?;
    let mut fields = command_fields(alloc, "move_column", dataset)?;
    put(&mut fields, alloc, "name", name)?;
    put(&mut fields, alloc, "at", Json::from(at))?;
    Ok(Json::Object(fields))
}

/// `keep_columns` as JSON.
pub fn keep_columns_json(
    alloc: Global,
    dataset: &Name,
    names: &DistinctNames,
) -> Result<Json, NoMemory>
    requires { (1 ≤ length names.now) × (length names.now ≤ 32) }
    ensures { IfOk result (λ json.
        IsJsonOf command_of 4 (command.KeepColumns dataset.now names.now) (view json)) }
{
    let dataset = dataset.to_json(alloc)?;
    let names = each_json(alloc, names.as_names().as_slice())?;
    let mut fields = command_fields(alloc, "keep_columns", dataset)?;
    put(&mut fields, alloc, "names", Json::Array(names))?;
    Ok(Json::Object(fields))
}

/// `formula` as JSON.
pub fn formula_json(
    alloc: Global,
    dataset: &Name,
    column: &Name,
    text: &Words,
) -> Result<Json, NoMemory>
    ensures { IfOk result (λ json.
        IsJsonOf command_of 4 (command.Formula dataset.now column.now text.now) (view json)) }
{
    let dataset = dataset.to_json(alloc)?;
    let column = column.to_json(alloc)?;
    let mut fields = command_fields(alloc, "formula", dataset)?;
    put(&mut fields, alloc, "column", column)?;
    put(
        &mut fields,
        alloc,
        "text",
        Json::try_from_str(alloc, text.as_text())?,
    )?;
    Ok(Json::Object(fields))
}
