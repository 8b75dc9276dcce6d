//! The fourteen commands, as the tests name them.
//!
//! What other test modules call has no contract: tests look at what they get.
use sheet_commands::{Command, DistinctNames, SortName, SortNames};
use std::alloc::Global;
use value_types::{ColumnType, Name, Names, NoMemory, Value, Words, read_name};

pub(crate) fn named(text: &str) -> Result<Name, NoMemory> {
    read_name(text.as_bytes()).ok_or(NoMemory)
}

fn words(alloc: Global, text: &str) -> Result<Words, NoMemory> {
    let mut all = Words::new(alloc)?;
    all.push_text(alloc, text)?;
    Ok(all)
}

// The row that is named, or none for no text.
fn place(alloc: Global, text: &str) -> Result<Option<Words>, NoMemory> {
    if text.is_empty() {
        return Ok(None);
    }
    Ok(Some(words(alloc, text)?))
}

// ---- columns

/// A new column of Ints.
pub(crate) fn insert_column(dataset: &str, name: &str, at: u32) -> Result<Command, NoMemory> {
    let dataset = named(dataset)?;
    let name = named(name)?;
    let kind = ColumnType::Int;
    Ok(Command::InsertColumn {
        dataset,
        name,
        kind,
        at,
    })
}

pub(crate) fn delete_column(dataset: &str, name: &str) -> Result<Command, NoMemory> {
    let dataset = named(dataset)?;
    let name = named(name)?;
    Ok(Command::DeleteColumn { dataset, name })
}

pub(crate) fn rename_column(dataset: &str, name: &str, to: &str) -> Result<Command, NoMemory> {
    let dataset = named(dataset)?;
    let name = named(name)?;
    let to = named(to)?;
    Ok(Command::RenameColumn { dataset, name, to })
}

pub(crate) fn move_column(dataset: &str, name: &str, at: u32) -> Result<Command, NoMemory> {
    let dataset = named(dataset)?;
    let name = named(name)?;
    Ok(Command::MoveColumn { dataset, name, at })
}

pub(crate) fn keep_columns(
    alloc: Global,
    dataset: &str,
    listed: [&str; 2],
) -> Result<Command, NoMemory> {
    let dataset = named(dataset)?;
    let mut names = Names::new(alloc)?;
    for name in listed {
        names.push(alloc, named(name)?)?;
    }
    let names = DistinctNames::of(names).ok_or(NoMemory)?;
    Ok(Command::KeepColumns { dataset, names })
}

// ---- rows

/// A new row, first where no other is named.
pub(crate) fn insert_row(
    alloc: Global,
    dataset: &str,
    row: &str,
    after: &str,
) -> Result<Command, NoMemory> {
    let dataset = named(dataset)?;
    let row = named(row)?;
    let after = place(alloc, after)?;
    Ok(Command::InsertRow {
        dataset,
        row,
        after,
    })
}

pub(crate) fn delete_row(alloc: Global, dataset: &str, row: &str) -> Result<Command, NoMemory> {
    let dataset = named(dataset)?;
    let row = words(alloc, row)?;
    Ok(Command::DeleteRow { dataset, row })
}

/// A row after another, or first where no other is named.
pub(crate) fn move_row(
    alloc: Global,
    dataset: &str,
    row: &str,
    after: &str,
) -> Result<Command, NoMemory> {
    let dataset = named(dataset)?;
    let row = words(alloc, row)?;
    let after = place(alloc, after)?;
    Ok(Command::MoveRow {
        dataset,
        row,
        after,
    })
}

// ---- values

/// An Int in the column `a`.
pub(crate) fn set_value(
    alloc: Global,
    dataset: &str,
    row: &str,
    value: i64,
) -> Result<Command, NoMemory> {
    let dataset = named(dataset)?;
    let row = words(alloc, row)?;
    let column = named("a")?;
    Ok(Command::SetValue {
        dataset,
        row,
        column,
        value: Value::Int(value),
    })
}

/// A formula of the column `a`.
pub(crate) fn formula(alloc: Global, dataset: &str, text: &str) -> Result<Command, NoMemory> {
    let dataset = named(dataset)?;
    let column = named("a")?;
    let text = words(alloc, text)?;
    Ok(Command::Formula {
        dataset,
        column,
        text,
    })
}

/// By one column, descending.
pub(crate) fn sort(alloc: Global, dataset: &str, column: &str) -> Result<Command, NoMemory> {
    let dataset = named(dataset)?;
    let name = named(column)?;
    let mut by = SortNames::new(alloc)?;
    let descending = true;
    by.push(alloc, SortName { name, descending })?;
    Ok(Command::Sort { dataset, by })
}

// ---- datasets

pub(crate) fn rename(dataset: &str, to: &str) -> Result<Command, NoMemory> {
    let dataset = named(dataset)?;
    let to = named(to)?;
    Ok(Command::RenameDataset { dataset, to })
}

pub(crate) fn copy(dataset: &str, to: &str) -> Result<Command, NoMemory> {
    let dataset = named(dataset)?;
    let to = named(to)?;
    Ok(Command::CopyDataset { dataset, to })
}

pub(crate) fn drop(dataset: &str) -> Result<Command, NoMemory> {
    let dataset = named(dataset)?;
    Ok(Command::DropDataset { dataset })
}
