//! Names, texts and values in JSON, a value also fitted to the type of its column.
ghost use Rattle.std.specs.Prelude.{◌≡◌, IfOk, option_and_then};
ghost use Rattle.serde_json.specs.View.{view};
ghost use Rattle.dataset_types.specs.Fitting as fitting;
ghost use Rattle.json_fields.specs.Json as fields;
ghost use Rattle.json_fields.specs.Values as spec;

use crate::from_json::{FromJson, has_members, text_field};
use dataset_types::fitted;
use serde_json::Value as Json;
use std::alloc::Global;
use value_types::{ColumnType, Name, NoMemory, Value, Words, read_fixed, read_name};

impl FromJson for Name {
    ghost meaning = { spec.name_in };

    fn from_json(_alloc: Global, json: &Json) -> Result<Option<Name>, NoMemory> {
        match json.as_str() {
            Some(text) => Ok(read_name(text.as_bytes())),
            None => Ok(None),
        }
    }
}

/// The count of an object whose one field is a Fixed's text.
fn fixed_in(json: &Json) -> Option<i64>
    ensures { result ≡ spec.fixed_in (view json.now) }
{
    if !has_members(json, 1) {
        return None;
    }
    match text_field(json, "fixed") {
        Some(text) => read_fixed(text.as_bytes()),
        None => None,
    }
}

/// A copy of a text that owns its bytes.
pub fn words_of(alloc: Global, text: &str) -> Result<Words, NoMemory>
    ensures { IfOk result (λ words. words ≡ text.now) }
{
    let mut words = Words::new(alloc)?;
    words.push_text(alloc, text)?;
    Ok(words)
}

fn value_of(alloc: Global, json: &Json) -> Result<Option<Value>, NoMemory>
    ensures { IfOk result (λ found. found ≡ spec.value_of (view json.now)) }
{
    match json {
        Json::Null => Ok(Some(Value::Null)),
        Json::Bool(truth) => Ok(Some(Value::Bool(*truth))),
        Json::Number(number) => Ok(number.as_i64().map(Value::Int)),
        Json::String(text) => Ok(Some(Value::Text(words_of(alloc, text.as_str())?))),
        _ => Ok(fixed_in(json).map(Value::Fixed)),
    }
}

/// The value that a field holds, not yet fitted to a column, or none.
///
/// - Shape: null, a truth, a whole number, a text, or an object as `{"fixed":"2.5"}`.
/// - Source: docs/FORMATS.md, "Edit lines".
pub fn value_field(alloc: Global, json: &Json, name: &str) -> Result<Option<Value>, NoMemory>
    ensures { IfOk result (λ found. found ≡ fields.field spec.value_of name.now (view json.now)) }
{
    match json.get(name) {
        Some(json) => value_of(alloc, json),
        None => Ok(None),
    }
}

/// The value that stands for this JSON in a column of a type, or none where it fits none.
///
/// - Shape: an Int in a `fixed` column is widened, 3 to 3.0000.
/// - Source: docs/FORMATS.md, "Edit lines".
pub fn value_for(alloc: Global, kind: ColumnType, json: &Json) -> Result<Option<Value>, NoMemory>
    ensures { IfOk result (λ found.
        found ≡ option_and_then (fitting.fitted kind) (spec.value_of (view json.now))) }
{
    match value_of(alloc, json)? {
        Some(value) => Ok(fitted(kind, value)),
        None => Ok(None),
    }
}

impl FromJson for Option<Words> {
    ghost meaning = { spec.after_in };

    fn from_json(alloc: Global, json: &Json) -> Result<Option<Option<Words>>, NoMemory> {
        match json {
            Json::Null => Ok(Some(None)),
            Json::String(text) => Ok(Some(Some(words_of(alloc, text.as_str())?))),
            _ => Ok(None),
        }
    }
}
