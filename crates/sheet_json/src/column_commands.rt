//! Spreadsheet commands on the columns of a dataset, read.
ghost use Rattle.std.specs.Prelude.{◌≡◌, IfOk};
ghost use Rattle.serde_json.specs.View.{view};
ghost use Rattle.sheet_json.specs.ColumnCommands as spec;

use json_fields::{field, has_members, position_field, text_field, type_field, words_of};
use serde_json::Value as Json;
use sheet_commands::Command;
use std::alloc::Global;
use value_types::{Name, NoMemory};

fn insert_column_of(alloc: Global, dataset: &Name, json: &Json) -> Result<Option<Command>, NoMemory>
    ensures { IfOk result (λ found. found ≡ spec.insert_column_of dataset.now (view json.now)) }
{
    if !has_members(json, 5) {
        return Ok(None);
    }
    let Some(name) = field(alloc, json, "name")? else {
        return Ok(None);
    };
    let Some(kind) = type_field(json, "type") else {
        return Ok(None);
    };
    let Some(at) = position_field(json, "at") else {
        return Ok(None);
    };
    Ok(Some(Command::InsertColumn {
        dataset: dataset.copy(),
        name,
        kind,
        at,
    }))
}

fn delete_column_of(alloc: Global, dataset: &Name, json: &Json) -> Result<Option<Command>, NoMemory>
    ensures { IfOk result (λ found. found ≡ spec.delete_column_of dataset.now (view json.now)) }
{
    if !has_members(json, 3) {
        return Ok(None);
    }
    let Some(name) = field(alloc, json, "name")? else {
        return Ok(None);
    };
    Ok(Some(Command::DeleteColumn {
        dataset: dataset.copy(),
        name,
    }))
}

fn rename_column_of(alloc: Global, dataset: &Name, json: &Json) -> Result<Option<Command>, NoMemory>
    ensures { IfOk result (λ found. found ≡ spec.rename_column_of dataset.now (view json.now)) }
{
    if !has_members(json, 4) {
        return Ok(None);
    }
    let Some(name) = field(alloc, json, "name")? else {
        return Ok(None);
    };
    let Some(to) = field(alloc, json, "to")? else {
        return Ok(None);
    };
    Ok(Some(Command::RenameColumn {
        dataset: dataset.copy(),
        name,
        to,
    }))
}

fn move_column_of(alloc: Global, dataset: &Name, json: &Json) -> Result<Option<Command>, NoMemory>
    ensures { IfOk result (λ found. found ≡ spec.move_column_of dataset.now (view json.now)) }
{
    if !has_members(json, 4) {
        return Ok(None);
    }
    let Some(name) = field(alloc, json, "name")? else {
        return Ok(None);
    };
    let Some(at) = position_field(json, "at") else {
        return Ok(None);
    };
    Ok(Some(Command::MoveColumn {
        dataset: dataset.copy(),
        name,
        at,
    }))
}

fn keep_columns_of(alloc: Global, dataset: &Name, json: &Json) -> Result<Option<Command>, NoMemory>
    ensures { IfOk result (λ found. found ≡ spec.keep_columns_of dataset.now (view json.now)) }
{
    if !has_members(json, 3) {
        return Ok(None);
    }
    let Some(names) = field(alloc, json, "names")? else {
        return Ok(None);
    };
    Ok(Some(Command::KeepColumns {
        dataset: dataset.copy(),
        names,
    }))
}

fn formula_of(alloc: Global, dataset: &Name, json: &Json) -> Result<Option<Command>, NoMemory>
    ensures { IfOk result (λ found. found ≡ spec.formula_of dataset.now (view json.now)) }
{
    if !has_members(json, 4) {
        return Ok(None);
    }
    let Some(column) = field(alloc, json, "column")? else {
        return Ok(None);
    };
    let Some(text) = text_field(json, "text") else {
        return Ok(None);
    };
    Ok(Some(Command::Formula {
        dataset: dataset.copy(),
        column,
        text: words_of(alloc, text)?,
    }))
}

/// The command that a word asks for, where it is one on columns.
pub fn column_command(
    alloc: Global,
    word: &str,
    dataset: &Name,
    json: &Json,
) -> Result<Option<Command>, NoMemory>
    ensures { IfOk result (λ found.
        found ≡ spec.column_command word.now dataset.now (view json.now)) }
{
    match word {
        "insert_column" => insert_column_of(alloc, dataset, json),
        "delete_column" => delete_column_of(alloc, dataset, json),
        "rename_column" => rename_column_of(alloc, dataset, json),
        "move_column" => move_column_of(alloc, dataset, json),
        "keep_columns" => keep_columns_of(alloc, dataset, json),
        "formula" => formula_of(alloc, dataset, json),
        _ => Ok(None),
    }
}
