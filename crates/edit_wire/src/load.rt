//! Load cells: a file of the shelf, the types of its columns, and what repairs a field.
ghost use Rattle.std.specs.Prelude.{◌≡◌, IfOk};
ghost use Rattle.serde_json.specs.View.{view};
ghost use Rattle.edit_wire.specs.Loads as spec;

use crate::edit::EditCell;
use dataset_types::{Repair, Types};
use json_fields::{counted, field, field_or, has_members, text_field, words_of};
use serde_json::Value as Json;
use std::alloc::Global;
use value_types::{Name, NoMemory, Words};

/// The name of a file.
fn file_named(alloc: Global, text: &str) -> Result<Option<Words>, NoMemory>
    ensures { IfOk result (λ found. found ≡ spec.file_named text.now) }
{
    if text.is_empty() || text.len() > 255 {
        return Ok(None);
    }
    Ok(Some(words_of(alloc, text)?))
}

/// The load of a name and a file, with what is said of types and repair.
fn load_from(
    alloc: Global,
    name: Name,
    file: Words,
    json: &Json,
) -> Result<Option<EditCell>, NoMemory>
    ensures { IfOk result (λ found. found ≡ spec.load_from name file (view json.now)) }
{
    let Some(types) = field_or(alloc, json, "types", Types::new(alloc)?)? else {
        return Ok(None);
    };
    let Some(repair) = field_or(alloc, json, "repair", Repair::Null)? else {
        return Ok(None);
    };
    Ok(Some(EditCell::Load {
        name,
        file,
        types,
        repair,
    }))
}

/// The load cell that an object is.
///
/// - Source: docs/FORMATS.md, "Edit lines".
#[tactic(auto, unfolding(crate::specs::Loads::load_of))]
pub fn load_of(alloc: Global, json: &Json) -> Result<Option<EditCell>, NoMemory>
    ensures { IfOk result (λ found. found ≡ spec.load_of (view json.now)) }
{
    let members = 2 + counted(json, "types") + counted(json, "repair");
    if !has_members(json, members) {
        return Ok(None);
    }
    let Some(name) = field(alloc, json, "load")? else {
        return Ok(None);
    };
    let Some(text) = text_field(json, "file") else {
        return Ok(None);
    };
    let Some(file) = file_named(alloc, text)? else {
        return Ok(None);
    };
    load_from(alloc, name, file, json)
}
