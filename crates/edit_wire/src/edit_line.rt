//! The edit of a line: its JSON, its branch, and what its word asks for.
ghost use Rattle.std.specs.Prelude.{◌≡◌, IfOk};
ghost use Rattle.serde_json.specs.View.{view};
ghost use Rattle.edit_wire.specs.Answers.{Gives};
ghost use Rattle.edit_wire.specs.Cells as cells;
ghost use Rattle.edit_wire.specs.EditWords.{is_edit_word};
ghost use Rattle.edit_wire.specs.Plain.{IsPlainEdit};
ghost use Rattle.edit_wire.specs.Wire as spec;

use crate::edit::{Edit, EditCell, EditFault, EditKind};
use crate::load::load_of;
use crate::make::make_of;
use crate::sql::sql_of;
use cell_model::{CellKind, EditRefusal};
use json_fields::{FromJson, field, has_members, position_field, text_field};
use json_glance::{Glance, glance_at, json_of};
use serde_json::Value as Json;
use sheet_json::command_of;
use std::alloc::Global;
use value_types::NoMemory;

impl FromJson for EditCell {
    ghost meaning = { cells.cell_of };

    fn from_json(alloc: Global, json: &Json) -> Result<Option<EditCell>, NoMemory> {
        if let Some(kind) = make_of(alloc, json)? {
            return Ok(Some(EditCell::Other(kind)));
        }
        if let Some(load) = load_of(alloc, json)? {
            return Ok(Some(load));
        }
        if let Some(command) = command_of(alloc, json)? {
            return Ok(Some(EditCell::Other(CellKind::Vizual(command))));
        }
        match sql_of(alloc, json)? {
            Some(kind) => Ok(Some(EditCell::Other(kind))),
            None => Ok(None),
        }
    }
}

/// The position and the cell of an edit that has both.
fn position_and_cell(alloc: Global, json: &Json) -> Result<Option<(u32, EditCell)>, NoMemory>
    ensures { IfOk result (λ found. found ≡ spec.position_and_cell (view json.now)) }
{
    if !has_members(json, 4) {
        return Ok(None);
    }
    let Some(at) = position_field(json, "at") else {
        return Ok(None);
    };
    match field(alloc, json, "cell")? {
        Some(cell) => Ok(Some((at, cell))),
        None => Ok(None),
    }
}

fn append_of(alloc: Global, json: &Json) -> Result<Option<EditKind>, NoMemory>
    ensures { IfOk result (λ found. found ≡ spec.append_of (view json.now)) }
{
    if !has_members(json, 3) {
        return Ok(None);
    }
    match field(alloc, json, "cell")? {
        Some(cell) => Ok(Some(EditKind::Append { cell })),
        None => Ok(None),
    }
}

fn insert_of(alloc: Global, json: &Json) -> Result<Option<EditKind>, NoMemory>
    ensures { IfOk result (λ found. found ≡ spec.insert_of (view json.now)) }
{
    match position_and_cell(alloc, json)? {
        Some((at, cell)) => Ok(Some(EditKind::Insert { at, cell })),
        None => Ok(None),
    }
}

fn update_of(alloc: Global, json: &Json) -> Result<Option<EditKind>, NoMemory>
    ensures { IfOk result (λ found. found ≡ spec.update_of (view json.now)) }
{
    match position_and_cell(alloc, json)? {
        Some((at, cell)) => Ok(Some(EditKind::Update { at, cell })),
        None => Ok(None),
    }
}

fn delete_of(json: &Json) -> Option<EditKind>
    ensures { result ≡ spec.delete_of (view json.now) }
{
    if !has_members(json, 3) {
        return None;
    }
    match position_field(json, "at") {
        Some(at) => Some(EditKind::Delete { at }),
        None => None,
    }
}

fn branch_of(json: &Json) -> Option<EditKind>
    ensures { result ≡ spec.branch_of (view json.now) }
{
    if !has_members(json, 3) {
        return None;
    }
    match position_field(json, "from") {
        Some(from) => Some(EditKind::Branch { from }),
        None => None,
    }
}

fn kind_named(alloc: Global, word: &str, json: &Json) -> Result<Option<EditKind>, NoMemory>
    ensures { IfOk result (λ found. found ≡ spec.kind_named word.now (view json.now)) }
{
    match word {
        "append" => append_of(alloc, json),
        "insert" => insert_of(alloc, json),
        "update" => update_of(alloc, json),
        "delete" => Ok(delete_of(json)),
        "branch" => Ok(branch_of(json)),
        _ => Ok(None),
    }
}

#[tactic(auto, unfolding(crate::specs::Wire::edit_in))]
fn edit_in(alloc: Global, json: &Json) -> Result<Option<Edit>, NoMemory>
    ensures { IfOk result (λ found. found ≡ spec.edit_in (view json.now)) }
{
    let Some(branch) = field(alloc, json, "branch")? else {
        return Ok(None);
    };
    let Some(word) = text_field(json, "edit") else {
        return Ok(None);
    };
    match kind_named(alloc, word, json)? {
        Some(kind) => Ok(Some(Edit { branch, kind })),
        None => Ok(None),
    }
}

/// Whether a word is one of those that edits have.
fn is_edit_word(word: &[u8]) -> bool
    ensures { result ≡ is_edit_word word.now }
{
    word == b"append".as_slice()
        || word == b"insert".as_slice()
        || word == b"update".as_slice()
        || word == b"delete".as_slice()
        || word == b"branch".as_slice()
}

/// The edit that a line is, read from the value that the line is.
#[tactic(auto, using(crate::proofs::PlainLines::edit_plain))]
fn read_edit(alloc: Global, line: &[u8]) -> Result<Edit, EditFault>
    ensures value { Gives result (spec.edit_of line.now) }
    ensures plain { IfOk result IsPlainEdit }
{
    let Some(json) = json_of(alloc, line)? else {
        return Err(EditFault::Refused(EditRefusal::BadJson));
    };
    match edit_in(alloc, &json)? {
        Some(edit) => Ok(edit),
        None => Err(EditFault::Refused(EditRefusal::BadEdit)),
    }
}

/// The edit that a line is. Each such edit has a line that `line_of` writes.
///
/// - Shape: the line's bytes without its line feed.
/// - Error: `BadJson` exactly where it is no JSON value, `BadEdit` exactly where the value is no edit.
/// - Source: docs/FORMATS.md, "Edit lines".
pub fn edit_of(alloc: Global, line: &[u8]) -> Result<Edit, EditFault>
    ensures value { Gives result (spec.edit_of line.now) }
    ensures plain { IfOk result IsPlainEdit }
{
    match glance_at(alloc, line, "edit")? {
        Glance::NotJson => Err(EditFault::Refused(EditRefusal::BadJson)),
        Glance::NoText => Err(EditFault::Refused(EditRefusal::BadEdit)),
        Glance::Text(word) => {
            if is_edit_word(word.as_slice()) {
                read_edit(alloc, line)
            } else {
                Err(EditFault::Refused(EditRefusal::BadEdit))
            }
        }
    }
}
