//! Spreadsheet commands on the rows of a dataset, as JSON.
ghost use Rattle.std.specs.Prelude.{IfOk, ◌≤◌, length};
ghost use Rattle.serde_json.specs.View.{view};
ghost use Rattle.sheet_commands.specs.declared.command.Command.TheVariants as command;
ghost use Rattle.sheet_json.specs.Commands.{command_of};
ghost use Rattle.json_fields.specs.Written.{IsJsonOf};

use crate::command_fields::command_fields;
use json_fields::{ToJson, each_json, value_json};
use serde_json::{Value as Json, put};
use sheet_commands::SortNames;
use std::alloc::Global;
use value_types::{Name, NoMemory, Value, Words};

/// `insert_row` as JSON.
pub fn insert_row_json(
    alloc: Global,
    dataset: &Name,
    row: &Name,
    after: &Option<Words>,
) -> Result<Json, NoMemory>
    ensures { IfOk result (λ json.
        IsJsonOf command_of 4 (command.InsertRow dataset.now row.now after.now) (view json)) }
{
    let dataset = dataset.to_json(alloc)?;
    let row = row.to_json(alloc)?;
    let after = after.to_json(alloc)?;
    let mut fields = command_fields(alloc, "insert_row", dataset)?;
    put(&mut fields, alloc, "row", row)?;
    put(&mut fields, alloc, "after", after)?;
    Ok(Json::Object(fields))
}

/// `delete_row` as JSON.
pub fn delete_row_json(alloc: Global, dataset: &Name, row: &Words) -> Result<Json, NoMemory>
    ensures { IfOk result (λ json.
        IsJsonOf command_of 4 (command.DeleteRow dataset.now row.now) (view json)) }
{
    let dataset = dataset.to_json(alloc)?;
    let mut fields = command_fields(alloc, "delete_row", dataset)?;
    put(
        &mut fields,
        alloc,
        "row",
        Json::try_from_str(alloc, row.as_text())?,
    )?;
    Ok(Json::Object(fields))
}

/// `move_row` as JSON.
pub fn move_row_json(
    alloc: Global,
    dataset: &Name,
    row: &Words,
    after: &Option<Words>,
) -> Result<Json, NoMemory>
    ensures { IfOk result (λ json.
        IsJsonOf command_of 4 (command.MoveRow dataset.now row.now after.now) (view json)) }
{
    let dataset = dataset.to_json(alloc)?;
    let after = after.to_json(alloc)?;
    let mut fields = command_fields(alloc, "move_row", dataset)?;
    put(
        &mut fields,
        alloc,
        "row",
        Json::try_from_str(alloc, row.as_text())?,
    )?;
    put(&mut fields, alloc, "after", after)?;
    Ok(Json::Object(fields))
}

/// `set_value` as JSON.
pub fn set_value_json(
    alloc: Global,
    dataset: &Name,
    row: &Words,
    column: &Name,
    value: &Value,
) -> Result<Json, NoMemory>
    ensures { IfOk result (λ json.
        IsJsonOf command_of 4 (command.SetValue dataset.now row.now column.now value.now) (view json)) }
{
    let dataset = dataset.to_json(alloc)?;
    let column = column.to_json(alloc)?;
    let value = value_json(alloc, value)?;
    let mut fields = command_fields(alloc, "set_value", dataset)?;
    put(
        &mut fields,
        alloc,
        "row",
        Json::try_from_str(alloc, row.as_text())?,
    )?;
    put(&mut fields, alloc, "column", column)?;
    put(&mut fields, alloc, "value", value)?;
    Ok(Json::Object(fields))
}

/// `sort` as JSON.
pub fn sort_json(alloc: Global, dataset: &Name, by: &SortNames) -> Result<Json, NoMemory>
    requires { (1 ≤ length by.now) × (length by.now ≤ 32) }
    ensures { IfOk result (λ json.
        IsJsonOf command_of 4 (command.Sort dataset.now by.now) (view json)) }
{
    let dataset = dataset.to_json(alloc)?;
    let by = each_json(alloc, by.as_slice())?;
    let mut fields = command_fields(alloc, "sort", dataset)?;
    put(&mut fields, alloc, "by", Json::Array(by))?;
    Ok(Json::Object(fields))
}
