//! Names and values as JSON.
ghost use Rattle.std.specs.Prelude.{IfOk, IsTrue};
ghost use Rattle.serde_json.specs.View.{view};
ghost use Rattle.value_types.specs.Names.{is_name};
ghost use Rattle.value_types.specs.declared.value.Value.TheVariants as value;
ghost use Rattle.json_fields.specs.Values.{name_in, value_of, after_in};
ghost use Rattle.json_fields.specs.Written.{IsJsonOf, bare_values, values_in};

use crate::to_json::{ToJson, each_json};
use dataset_types::{Marked, Row};
use serde_json::{Value as Json, json};
use std::alloc::Global;
use value_types::{Name, NoMemory, Value, Words, literal_text};

// A name's bytes are one.
fn law_of_name(name: &Name)
    ensures { IsTrue (is_name name.now) }
{
    let _bytes = name.as_slice();
}

impl ToJson for Name {
    ghost says = { IsJsonOf name_in 0 };

    fn to_json(&self, alloc: Global) -> Result<Json, NoMemory> {
        law_of_name(self);
        Ok(Json::try_from_str(alloc, self.as_text())?)
    }
}

/// The object that holds a Fixed's text.
fn fixed_json(alloc: Global, count: i64) -> Result<Json, NoMemory>
    ensures { IfOk result (λ json. IsJsonOf value_of 1 (value.Fixed count) (view json)) }
{
    let mut text = Words::new(alloc)?;
    literal_text(alloc, &Value::Fixed(count), &mut text)?;
    Ok(json!(in alloc; {"fixed": text.as_text()})?)
}

/// The JSON of a value, which is read as this value.
///
/// - Shape: an Int as a whole number, a Fixed as an object.
/// - Source: docs/FORMATS.md, "Edit lines".
pub fn value_json(alloc: Global, value: &Value) -> Result<Json, NoMemory>
    ensures { IfOk result (λ json. IsJsonOf value_of 1 value.now (view json)) }
{
    match value {
        Value::Null => Ok(Json::Null),
        Value::Bool(truth) => Ok(Json::Bool(*truth)),
        Value::Int(n) => Ok(Json::from(*n)),
        Value::Fixed(count) => fixed_json(alloc, *count),
        Value::Text(text) => Ok(Json::try_from_str(alloc, text.as_text())?),
    }
}

impl ToJson for Marked {
    ghost says = { λ m. IsJsonOf value_of 1 m.value };

    fn to_json(&self, alloc: Global) -> Result<Json, NoMemory> {
        value_json(alloc, &self.value)
    }
}

impl ToJson for Option<Words> {
    ghost says = { IsJsonOf after_in 0 };

    fn to_json(&self, alloc: Global) -> Result<Json, NoMemory> {
        match self {
            None => Ok(Json::Null),
            Some(row) => Ok(Json::try_from_str(alloc, row.as_text())?),
        }
    }
}

impl ToJson for Row {
    ghost says = { λ row. IsJsonOf bare_values 2 (values_in row) };

    fn to_json(&self, alloc: Global) -> Result<Json, NoMemory> {
        Ok(Json::Array(each_json(alloc, self.values.as_slice())?))
    }
}
