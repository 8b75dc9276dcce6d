//! Commands, written again.
ghost use Rattle.std.specs.Prelude.{◌≡◌, IfOk, IsTrue};
ghost use Rattle.sheet_commands.specs.declared.command.Command.TheVariants.{SetValue};
ghost use Rattle.sheet_commands.specs.Groups as spec;

use crate::command::Command;
use std::alloc::Global;
use value_types::{Name, NoMemory, Value, Words};

fn copy_after(alloc: Global, after: &Option<Words>) -> Result<Option<Words>, NoMemory>
    ensures { IfOk result (λ a. a ≡ after.now) }
{
    match after {
        None => Ok(None),
        Some(row) => Ok(Some(row.copy(alloc)?)),
    }
}

fn copy_on_columns(alloc: Global, command: &Command) -> Result<Command, NoMemory>
    requires { IsTrue (spec.is_on_columns command.now) }
    ensures { IfOk result (λ c. c ≡ command.now) }
{
    match command {
        Command::InsertColumn {
            dataset,
            name,
            kind,
            at,
        } => Ok(Command::InsertColumn {
            dataset: dataset.copy(),
            name: name.copy(),
            kind: *kind,
            at: *at,
        }),
        Command::DeleteColumn { dataset, name } => Ok(Command::DeleteColumn {
            dataset: dataset.copy(),
            name: name.copy(),
        }),
        Command::RenameColumn { dataset, name, to } => Ok(Command::RenameColumn {
            dataset: dataset.copy(),
            name: name.copy(),
            to: to.copy(),
        }),
        Command::MoveColumn { dataset, name, at } => Ok(Command::MoveColumn {
            dataset: dataset.copy(),
            name: name.copy(),
            at: *at,
        }),
        Command::KeepColumns { dataset, names } => Ok(Command::KeepColumns {
            dataset: dataset.copy(),
            names: names.copy(alloc)?,
        }),
        _ => unreachable!(),
    }
}

fn set_value(
    alloc: Global,
    dataset: &Name,
    row: &Words,
    column: &Name,
    value: &Value,
) -> Result<Command, NoMemory>
    ensures { IfOk result (λ c. c ≡ SetValue dataset.now row.now column.now value.now) }
{
    Ok(Command::SetValue {
        dataset: dataset.copy(),
        row: row.copy(alloc)?,
        column: column.copy(),
        value: value.copy(alloc)?,
    })
}

fn copy_on_a_row(alloc: Global, command: &Command) -> Result<Command, NoMemory>
    requires { IsTrue (spec.is_on_a_row command.now) }
    ensures { IfOk result (λ c. c ≡ command.now) }
{
    match command {
        Command::InsertRow {
            dataset,
            row,
            after,
        } => Ok(Command::InsertRow {
            dataset: dataset.copy(),
            row: row.copy(),
            after: copy_after(alloc, after)?,
        }),
        Command::DeleteRow { dataset, row } => Ok(Command::DeleteRow {
            dataset: dataset.copy(),
            row: row.copy(alloc)?,
        }),
        Command::MoveRow {
            dataset,
            row,
            after,
        } => Ok(Command::MoveRow {
            dataset: dataset.copy(),
            row: row.copy(alloc)?,
            after: copy_after(alloc, after)?,
        }),
        Command::SetValue {
            dataset,
            row,
            column,
            value,
        } => set_value(alloc, dataset, row, column, value),
        _ => unreachable!(),
    }
}

impl Command {
    /// An equal command.
    pub fn copy(&self, alloc: Global) -> Result<Command, NoMemory>
        ensures { IfOk result (λ c. c ≡ self.now) }
    {
        match self {
            Command::InsertColumn { .. }
            | Command::DeleteColumn { .. }
            | Command::RenameColumn { .. }
            | Command::MoveColumn { .. }
            | Command::KeepColumns { .. } => copy_on_columns(alloc, self),
            Command::InsertRow { .. }
            | Command::DeleteRow { .. }
            | Command::MoveRow { .. }
            | Command::SetValue { .. } => copy_on_a_row(alloc, self),
            Command::Formula {
                dataset,
                column,
                text,
            } => Ok(Command::Formula {
                dataset: dataset.copy(),
                column: column.copy(),
                text: text.copy(alloc)?,
            }),
            Command::Sort { dataset, by } => Ok(Command::Sort {
                dataset: dataset.copy(),
                by: by.copy(alloc)?,
            }),
            Command::RenameDataset { dataset, to } => Ok(Command::RenameDataset {
                dataset: dataset.copy(),
                to: to.copy(),
            }),
            Command::CopyDataset { dataset, to } => Ok(Command::CopyDataset {
                dataset: dataset.copy(),
                to: to.copy(),
            }),
            Command::DropDataset { dataset } => Ok(Command::DropDataset {
                dataset: dataset.copy(),
            }),
        }
    }
}
