//! Spreadsheet commands on the rows of a dataset, read.
ghost use Rattle.std.specs.Prelude.{◌≡◌, IfOk};
ghost use Rattle.serde_json.specs.View.{view};
ghost use Rattle.sheet_json.specs.RowCommands as spec;

use json_fields::{field, has_members, text_field, value_field, words_of};
use serde_json::Value as Json;
use sheet_commands::Command;
use std::alloc::Global;
use value_types::{Name, NoMemory};

fn insert_row_of(alloc: Global, dataset: &Name, json: &Json) -> Result<Option<Command>, NoMemory>
    ensures { IfOk result (λ found. found ≡ spec.insert_row_of dataset.now (view json.now)) }
{
    if !has_members(json, 4) {
        return Ok(None);
    }
    let Some(row) = field(alloc, json, "row")? else {
        return Ok(None);
    };
    let Some(after) = field(alloc, json, "after")? else {
        return Ok(None);
    };
    Ok(Some(Command::InsertRow {
        dataset: dataset.copy(),
        row,
        after,
    }))
}

fn delete_row_of(alloc: Global, dataset: &Name, json: &Json) -> Result<Option<Command>, NoMemory>
    ensures { IfOk result (λ found. found ≡ spec.delete_row_of dataset.now (view json.now)) }
{
    if !has_members(json, 3) {
        return Ok(None);
    }
    let Some(row) = text_field(json, "row") else {
        return Ok(None);
    };
    Ok(Some(Command::DeleteRow {
        dataset: dataset.copy(),
        row: words_of(alloc, row)?,
    }))
}

fn move_row_of(alloc: Global, dataset: &Name, json: &Json) -> Result<Option<Command>, NoMemory>
    ensures { IfOk result (λ found. found ≡ spec.move_row_of dataset.now (view json.now)) }
{
    if !has_members(json, 4) {
        return Ok(None);
    }
    let Some(row) = text_field(json, "row") else {
        return Ok(None);
    };
    let Some(after) = field(alloc, json, "after")? else {
        return Ok(None);
    };
    Ok(Some(Command::MoveRow {
        dataset: dataset.copy(),
        row: words_of(alloc, row)?,
        after,
    }))
}

fn set_value_of(alloc: Global, dataset: &Name, json: &Json) -> Result<Option<Command>, NoMemory>
    ensures { IfOk result (λ found. found ≡ spec.set_value_of dataset.now (view json.now)) }
{
    if !has_members(json, 5) {
        return Ok(None);
    }
    let Some(row) = text_field(json, "row") else {
        return Ok(None);
    };
    let Some(column) = field(alloc, json, "column")? else {
        return Ok(None);
    };
    let Some(value) = value_field(alloc, json, "value")? else {
        return Ok(None);
    };
    Ok(Some(Command::SetValue {
        dataset: dataset.copy(),
        row: words_of(alloc, row)?,
        column,
        value,
    }))
}

fn sort_of(alloc: Global, dataset: &Name, json: &Json) -> Result<Option<Command>, NoMemory>
    ensures { IfOk result (λ found. found ≡ spec.sort_of dataset.now (view json.now)) }
{
    if !has_members(json, 3) {
        return Ok(None);
    }
    let Some(by) = field(alloc, json, "by")? else {
        return Ok(None);
    };
    Ok(Some(Command::Sort {
        dataset: dataset.copy(),
        by,
    }))
}

/// The command that a word asks for, where it is one on rows.
pub fn row_command(
    alloc: Global,
    word: &str,
    dataset: &Name,
    json: &Json,
) -> Result<Option<Command>, NoMemory>
    ensures { IfOk result (λ found.
        found ≡ spec.row_command word.now dataset.now (view json.now)) }
{
    match word {
        "insert_row" => insert_row_of(alloc, dataset, json),
        "delete_row" => delete_row_of(alloc, dataset, json),
        "move_row" => move_row_of(alloc, dataset, json),
        "set_value" => set_value_of(alloc, dataset, json),
        "sort" => sort_of(alloc, dataset, json),
        _ => Ok(None),
    }
}
