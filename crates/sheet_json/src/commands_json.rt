//! Spreadsheet cells as JSON.
ghost use Rattle.std.specs.Prelude.{IfOk, IsTrue};
ghost use Rattle.serde_json.specs.View.{view};
ghost use Rattle.sheet_commands.specs.Groups.{is_on_columns, is_on_a_row};
ghost use Rattle.sheet_json.specs.Commands.{command_of};
ghost use Rattle.sheet_json.specs.Plain.{IsPlainCommand};
ghost use Rattle.json_fields.specs.Written.{IsJsonOf};

use crate::columns_json::{
    delete_column_json, formula_json, insert_column_json, keep_columns_json, move_column_json,
    rename_column_json,
};
use crate::datasets_json::{copy_dataset_json, drop_dataset_json, rename_dataset_json};
use crate::rows_json::{
    delete_row_json, insert_row_json, move_row_json, set_value_json, sort_json,
};
use serde_json::Value as Json;
use sheet_commands::Command;
use std::alloc::Global;
use value_types::NoMemory;

fn on_columns_json(alloc: Global, command: &Command) -> Result<Json, NoMemory>
    requires on_columns { IsTrue (is_on_columns command.now) }
    requires plain { IsPlainCommand command.now }
    ensures { IfOk result (λ json. IsJsonOf command_of 4 command.now (view json)) }
{
    match command {
        Command::InsertColumn {
            dataset,
            name,
            kind,
            at,
        } => insert_column_json(alloc, dataset, name, *kind, *at),
        Command::DeleteColumn { dataset, name } => delete_column_json(alloc, dataset, name),
        Command::RenameColumn { dataset, name, to } => {
            rename_column_json(alloc, dataset, name, to)
        }
        Command::MoveColumn { dataset, name, at } => move_column_json(alloc, dataset, name, *at),
        Command::KeepColumns { dataset, names } => keep_columns_json(alloc, dataset, names),
        _ => unreachable!(),
    }
}

fn on_a_row_json(alloc: Global, command: &Command) -> Result<Json, NoMemory>
    requires { IsTrue (is_on_a_row command.now) }
    ensures { IfOk result (λ json. IsJsonOf command_of 4 command.now (view json)) }
{
    match command {
        Command::InsertRow {
            dataset,
            row,
            after,
        } => insert_row_json(alloc, dataset, row, after),
        Command::DeleteRow { dataset, row } => delete_row_json(alloc, dataset, row),
        Command::MoveRow {
            dataset,
            row,
            after,
        } => move_row_json(alloc, dataset, row, after),
        Command::SetValue {
            dataset,
            row,
            column,
            value,
        } => set_value_json(alloc, dataset, row, column, value),
        _ => unreachable!(),
    }
}

/// The JSON of a spreadsheet cell, which is read as this cell.
///
/// - Source: docs/FORMATS.md, "Spreadsheet commands".
pub fn command_json(alloc: Global, command: &Command) -> Result<Json, NoMemory>
    requires { IsPlainCommand command.now }
    ensures { IfOk result (λ json. IsJsonOf command_of 4 command.now (view json)) }
{
    match command {
        Command::InsertColumn { .. }
        | Command::DeleteColumn { .. }
        | Command::RenameColumn { .. }
        | Command::MoveColumn { .. }
        | Command::KeepColumns { .. } => on_columns_json(alloc, command),
        Command::InsertRow { .. }
        | Command::DeleteRow { .. }
        | Command::MoveRow { .. }
        | Command::SetValue { .. } => on_a_row_json(alloc, command),
        Command::Formula {
            dataset,
            column,
            text,
        } => formula_json(alloc, dataset, column, text),
        Command::Sort { dataset, by } => sort_json(alloc, dataset, by),
        Command::RenameDataset { dataset, to } => rename_dataset_json(alloc, dataset, to),
        Command::CopyDataset { dataset, to } => copy_dataset_json(alloc, dataset, to),
        Command::DropDataset { dataset } => drop_dataset_json(alloc, dataset),
    }
}
