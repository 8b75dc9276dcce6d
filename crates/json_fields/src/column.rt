//! Columns in JSON, and the types of columns by their names.
ghost use Rattle.std.specs.Prelude.{◌≡◌, IfOk};
ghost use Rattle.serde_json.specs.View.{view, items_view};
ghost use Rattle.json_fields.specs.Json as fields;
ghost use Rattle.json_fields.specs.Columns as spec;

use crate::from_json::{FromJson, text_field};
use dataset_types::Column;
use serde_json::Value as Json;
use std::alloc::Global;
use value_types::{ColumnType, Name, NoMemory};

/// The type of a name.
pub fn type_named(word: &str) -> Option<ColumnType>
    ensures { result ≡ spec.type_named word.now }
{
    match word {
        "bool" => Some(ColumnType::Bool),
        "int" => Some(ColumnType::Int),
        "fixed" => Some(ColumnType::Fixed),
        "text" => Some(ColumnType::Text),
        _ => None,
    }
}

fn type_in(json: &Json) -> Option<ColumnType>
    ensures { result ≡ spec.type_in (view json.now) }
{
    match json.as_str() {
        Some(word) => type_named(word),
        None => None,
    }
}

/// The type of a column that a field is.
///
/// - Shape: the field is the type's name, as `type_word` writes it; any other text is none.
/// - Source: docs/FORMATS.md, "Edit lines".
pub fn type_field(json: &Json, name: &str) -> Option<ColumnType>
    ensures { result ≡ fields.field spec.type_in name.now (view json.now) }
{
    match text_field(json, name) {
        Some(word) => type_named(word),
        None => None,
    }
}

fn column_from(alloc: Global, list: &[Json]) -> Result<Option<Column>, NoMemory>
    ensures { IfOk result (λ found. found ≡ spec.column_from (items_view list.now)) }
{
    let Some((first, rest)) = list.split_first() else {
        return Ok(None);
    };
    let Some((second, rest)) = rest.split_first() else {
        return Ok(None);
    };
    if rest.len() > 0 {
        return Ok(None);
    }
    let Some(name) = Name::from_json(alloc, first)? else {
        return Ok(None);
    };
    match type_in(second) {
        Some(kind) => Ok(Some(Column { name, kind })),
        None => Ok(None),
    }
}

impl FromJson for Column {
    ghost meaning = { spec.column_in };

    fn from_json(alloc: Global, json: &Json) -> Result<Option<Column>, NoMemory> {
        match json.as_array() {
            Some(list) => column_from(alloc, list),
            None => Ok(None),
        }
    }
}
