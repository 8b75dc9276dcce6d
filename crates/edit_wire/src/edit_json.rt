//! Edits as JSON, and the line of an edit.
ghost use Rattle.std.specs.Prelude.{◌≡◌, codes, IfOk, Ok};
ghost use Rattle.serde_json.specs.Data.{string, member, no_members};
ghost use Rattle.serde_json.specs.View.{view, members_view};
ghost use Rattle.edit_wire.specs.Cells.{cell_of};
ghost use Rattle.edit_wire.specs.Plain.{IsPlainCell, IsPlainEdit, IsOneLine};
ghost use Rattle.edit_wire.specs.Wire.{edit_on, edit_in, edit_of};
ghost use Rattle.json_fields.specs.Written.{IsJsonOf};
ghost use Rattle.edit_wire.specs.declared.edit.EditKind.TheVariants as kind;

use crate::edit::{Edit, EditCell, EditKind};
use crate::load_json::load_json;
use crate::make_json::make_json;
use crate::sql::sql_json;
use cell_model::CellKind;
use json_fields::ToJson;
use serde_json::{Map, Value as Json, put};
use sheet_json::command_json;
use std::alloc::Global;
use value_types::{Bytes, Name, NoMemory};

#[tactic(auto, using(crate::proofs::OtherCells::written_cell))]
fn cell_json(alloc: Global, cell: &EditCell) -> Result<Json, NoMemory>
    requires { IsPlainCell cell.now }
    ensures { IfOk result (λ json. IsJsonOf cell_of 4 cell.now (view json)) }
{
    match cell {
        EditCell::Load {
            name,
            file,
            types,
            repair,
        } => load_json(alloc, name, file, types, *repair),
        EditCell::Other(CellKind::Make { name, table }) => make_json(alloc, name, table.get()),
        EditCell::Other(CellKind::Vizual(command)) => command_json(alloc, command),
        EditCell::Other(CellKind::Sql { text, into }) => sql_json(alloc, text, into),
        EditCell::Other(CellKind::Load { .. }) => unreachable!(),
    }
}

/// The fields that every edit has.
fn common_fields(alloc: Global, word: &str, branch: Json) -> Result<Map<String, Json>, NoMemory>
    ensures { IfOk result (λ fields. members_view fields.entries
        ≡ member (codes "branch") (view branch)
        (member (codes "edit") (string word.now) no_members)) }
{
    let mut fields = Map::new(alloc);
    put(&mut fields, alloc, "edit", Json::try_from_str(alloc, word)?)?;
    put(&mut fields, alloc, "branch", branch)?;
    Ok(fields)
}

fn append_json(alloc: Global, branch: &Name, cell: &EditCell) -> Result<Json, NoMemory>
    requires { IsPlainCell cell.now }
    ensures { IfOk result (λ json.
        IsJsonOf edit_in 5 (edit_on branch.now (kind.Append cell.now)) (view json)) }
{
    let branch = branch.to_json(alloc)?;
    let cell = cell_json(alloc, cell)?;
    let mut fields = common_fields(alloc, "append", branch)?;
    put(&mut fields, alloc, "cell", cell)?;
    Ok(Json::Object(fields))
}

fn insert_json(alloc: Global, branch: &Name, at: u32, cell: &EditCell) -> Result<Json, NoMemory>
    requires { IsPlainCell cell.now }
    ensures { IfOk result (λ json.
        IsJsonOf edit_in 5 (edit_on branch.now (kind.Insert at cell.now)) (view json)) }
{
    let branch = branch.to_json(alloc)?;
    let cell = cell_json(alloc, cell)?;
    let mut fields = common_fields(alloc, "insert", branch)?;
    put(&mut fields, alloc, "at", Json::from(at))?;
    put(&mut fields, alloc, "cell", cell)?;
    Ok(Json::Object(fields))
}

fn update_json(alloc: Global, branch: &Name, at: u32, cell: &EditCell) -> Result<Json, NoMemory>
    requires { IsPlainCell cell.now }
    ensures { IfOk result (λ json.
        IsJsonOf edit_in 5 (edit_on branch.now (kind.Update at cell.now)) (view json)) }
{
    let branch = branch.to_json(alloc)?;
    let cell = cell_json(alloc, cell)?;
    let mut fields = common_fields(alloc, "update", branch)?;
    put(&mut fields, alloc, "at", Json::from(at))?;
    put(&mut fields, alloc, "cell", cell)?;
    Ok(Json::Object(fields))
}

fn delete_json(alloc: Global, branch: &Name, at: u32) -> Result<Json, NoMemory>
    ensures { IfOk result (λ json.
        IsJsonOf edit_in 5 (edit_on branch.now (kind.Delete at)) (view json)) }
{
    let branch = branch.to_json(alloc)?;
    let mut fields = common_fields(alloc, "delete", branch)?;
    put(&mut fields, alloc, "at", Json::from(at))?;
    Ok(Json::Object(fields))
}

fn branch_json(alloc: Global, branch: &Name, from: u32) -> Result<Json, NoMemory>
    ensures { IfOk result (λ json.
        IsJsonOf edit_in 5 (edit_on branch.now (kind.Branch from)) (view json)) }
{
    let branch = branch.to_json(alloc)?;
    let mut fields = common_fields(alloc, "branch", branch)?;
    put(&mut fields, alloc, "from", Json::from(from))?;
    Ok(Json::Object(fields))
}

fn edit_json(alloc: Global, edit: &Edit) -> Result<Json, NoMemory>
    requires { IsPlainEdit edit.now }
    ensures { IfOk result (λ json. IsJsonOf edit_in 5 edit.now (view json)) }
{
    let branch = &edit.branch;
    match &edit.kind {
        EditKind::Append { cell } => append_json(alloc, branch, cell),
        EditKind::Insert { at, cell } => insert_json(alloc, branch, *at, cell),
        EditKind::Update { at, cell } => update_json(alloc, branch, *at, cell),
        EditKind::Delete { at } => delete_json(alloc, branch, *at),
        EditKind::Branch { from } => branch_json(alloc, branch, *from),
    }
}

/// The line of an edit, without a line feed.
///
/// - Condition: the edit is one that some line gives, as each that `edit_of` answers.
/// - Source: docs/FORMATS.md, "Edit lines".
pub fn line_of(alloc: Global, edit: &Edit) -> Result<Bytes, NoMemory>
    requires { IsPlainEdit edit.now }
    ensures reads_back { IfOk result (λ line. edit_of line ≡ Ok edit.now) }
    ensures one_line { IfOk result IsOneLine }
{
    let json = edit_json(alloc, edit)?;
    let line = json.to_vec(alloc)?;
    Bytes::from_slice(alloc, line.as_slice())
}
