//! SELECT cells, read and as JSON.
ghost use Rattle.std.specs.Prelude.{◌≡◌, IfOk};
ghost use Rattle.serde_json.specs.View.{view};
ghost use Rattle.cell_model.specs.declared.cell.CellKind.TheVariants as cell;
ghost use Rattle.edit_wire.specs.Cells.{cell_of};
ghost use Rattle.edit_wire.specs.declared.edit.EditCell.TheVariants as from;
ghost use Rattle.edit_wire.specs.Sql as spec;
ghost use Rattle.json_fields.specs.Written.{IsJsonOf};

use cell_model::CellKind;
use json_fields::{ToJson, field, has_members, text_field, words_of};
use serde_json::{Value as Json, json};
use std::alloc::Global;
use value_types::{Name, NoMemory, Words};

/// The SELECT cell that an object is.
///
/// - Source: docs/FORMATS.md, "Queries".
#[tactic(auto, unfolding(crate::specs::Sql::sql_of))]
pub fn sql_of(alloc: Global, json: &Json) -> Result<Option<CellKind>, NoMemory>
    ensures { IfOk result (λ found. found ≡ spec.sql_of (view json.now)) }
{
    if !has_members(json, 2) {
        return Ok(None);
    }
    let Some(text) = text_field(json, "sql") else {
        return Ok(None);
    };
    let Some(into) = field(alloc, json, "into")? else {
        return Ok(None);
    };
    Ok(Some(CellKind::Sql {
        text: words_of(alloc, text)?,
        into,
    }))
}

/// The JSON of a SELECT cell, which is read as this cell.
///
/// - Source: docs/FORMATS.md, "Queries".
pub fn sql_json(alloc: Global, text: &Words, into: &Name) -> Result<Json, NoMemory>
    ensures { IfOk result (λ json.
        IsJsonOf cell_of 4 (from.Other (cell.Sql text.now into.now)) (view json)) }
{
    let into = into.to_json(alloc)?;
    Ok(json!(in alloc; {"sql": text.as_text(), "into": into})?)
}
