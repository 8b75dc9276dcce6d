//! Edits and refusals as texts that tests compare.
//!
//! What other test modules call has no contract: tests look at what they get.
use crate::{Edit, EditCell, EditFault, EditKind, edit_of, line_of};
use cell_model::{CellKind, EditRefusal};
use dataset_types::{Repair, Row, Table};
use std::alloc::Global;
use std::process::Abort;
use std::test::Fail;
use value_types::{Bytes, ColumnType, NoMemory, RowId, Words, literal_text};

/// The edit's text: its word, its branch and its numbers, then its cell.
fn push_edit(alloc: Global, out: &mut Words, edit: &Edit) -> Result<(), NoMemory> {
    let branch = edit.branch.as_text();
    match &edit.kind {
        EditKind::Append { cell } => {
            push(alloc, out, &["append ", branch])?;
            push_cell(alloc, out, cell)
        }
        EditKind::Insert { at, cell } => {
            push(alloc, out, &["insert ", branch])?;
            push_number(alloc, out, *at)?;
            push_cell(alloc, out, cell)
        }
        EditKind::Update { at, cell } => {
            push(alloc, out, &["update ", branch])?;
            push_number(alloc, out, *at)?;
            push_cell(alloc, out, cell)
        }
        EditKind::Delete { at } => {
            push(alloc, out, &["delete ", branch])?;
            push_number(alloc, out, *at)
        }
        EditKind::Branch { from } => {
            push(alloc, out, &["branch ", branch])?;
            push_number(alloc, out, *from)
        }
    }
}

/// Texts, one after the other.
pub fn push(alloc: Global, out: &mut Words, texts: &[&str]) -> Result<(), NoMemory> {
    for text in texts {
        out.push_text(alloc, text)?;
    }
    Ok(())
}

fn push_number(alloc: Global, out: &mut Words, n: u32) -> Result<(), NoMemory> {
    let text = format!(in alloc; " {n}")?;
    out.push_text(alloc, text.as_str())
}

fn push_cell(alloc: Global, out: &mut Words, cell: &EditCell) -> Result<(), NoMemory> {
    match cell {
        EditCell::Load {
            name,
            file,
            types,
            repair,
        } => {
            let (name, file) = (name.as_text(), file.as_text());
            push(alloc, out, &[" load ", name, " from ", file, " as"])?;
            for declared in types.as_slice() {
                let word = match declared {
                    Some(kind) => kind_text(*kind),
                    None => " guess",
                };
                out.push_text(alloc, word)?;
            }
            out.push_text(
                alloc,
                match repair {
                    Repair::Null => " or null",
                    Repair::Zero => " or zero",
                },
            )
        }
        EditCell::Other(CellKind::Make { name, table }) => {
            push(alloc, out, &[" make ", name.as_text()])?;
            push_table(alloc, out, table.get())
        }
        EditCell::Other(CellKind::Load { .. }) => out.push_text(alloc, " bytes of a load"),
        EditCell::Other(CellKind::Vizual(_)) => out.push_text(alloc, " a command"),
        EditCell::Other(CellKind::Sql { .. }) => out.push_text(alloc, " a SELECT"),
    }
}

fn kind_text(kind: ColumnType) -> &'static str {
    match kind {
        ColumnType::Bool => " bool",
        ColumnType::Int => " int",
        ColumnType::Fixed => " fixed",
        ColumnType::Text => " text",
    }
}

fn push_table(alloc: Global, out: &mut Words, table: &Table) -> Result<(), NoMemory> {
    for column in table.columns().as_slice() {
        push(alloc, out, &[" ", column.name.as_text()])?;
        out.push_text(alloc, kind_text(column.kind))?;
    }
    for row in table.rows().as_slice() {
        push_row(alloc, out, row)?;
    }
    if table.is_open() || table.is_loose() {
        out.push_text(alloc, " caveat")?;
    }
    Ok(())
}

fn push_row(alloc: Global, out: &mut Words, row: &Row) -> Result<(), NoMemory> {
    match (&row.id, row.sure) {
        (RowId::Rec(n), true) => {
            let text = format!(in alloc; "; #{n}")?;
            out.push_text(alloc, text.as_str())?;
        }
        _ => out.push_text(alloc, "; another id or unsure")?,
    }
    for marked in row.values.as_slice() {
        out.push_text(alloc, if marked.marked { " ~" } else { " " })?;
        literal_text(alloc, &marked.value, out)?;
    }
    Ok(())
}

fn edit_text(alloc: Global, edit: &Edit) -> Result<Words, NoMemory> {
    let mut out = Words::new(alloc)?;
    push_edit(alloc, &mut out, edit)?;
    Ok(out)
}

fn refusal_text(alloc: Global, refusal: EditRefusal) -> Result<Words, NoMemory> {
    let mut out = Words::new(alloc)?;
    let text = format!(in alloc; "{refusal:?}")?;
    out.push_text(alloc, text.as_str())?;
    Ok(out)
}

/// The edit's text, or the refusal's name.
fn said(alloc: Global, line: &[u8]) -> Result<Words, NoMemory> {
    match edit_of(alloc, line) {
        Ok(edit) => edit_text(alloc, &edit),
        Err(EditFault::Refused(refusal)) => refusal_text(alloc, refusal),
        Err(EditFault::NoMemory) => Err(NoMemory),
    }
}

/// Whether the line is an edit.
pub fn is_edit(alloc: Global, line: &[u8]) -> bool {
    edit_of(alloc, line).is_ok()
}

/// The line gives this text.
pub fn check<R: Abort>(rt: &R, alloc: Global, line: &[u8], text: &str) -> Result<(), Fail> {
    let said = said(alloc, line)?;
    let line = String::from_utf8_lossy(alloc, line)?;
    assert!(rt;
        said.as_text() == text,
        "{} gives {}",
        line.as_str(),
        said.as_text()
    );
    Ok(())
}

/// The line's edit, written as a line.
pub fn written_again(alloc: Global, line: &[u8]) -> Result<Bytes, Fail> {
    let edit = edit_of(alloc, line)?;
    Ok(line_of(alloc, &edit)?)
}

/// The edit's text once it was written and read again.
pub fn said_again(alloc: Global, line: &[u8]) -> Result<Words, Fail> {
    let written = written_again(alloc, line)?;
    Ok(said(alloc, written.as_slice())?)
}

/// A text so many times, with commas between.
pub fn repeated(alloc: Global, text: &str, count: usize) -> Result<Words, NoMemory> {
    let mut all = Words::new(alloc)?;
    for n in 0..count {
        push(alloc, &mut all, &[if n == 0 { "" } else { "," }, text])?;
    }
    Ok(all)
}
