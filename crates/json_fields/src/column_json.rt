//! Columns, and the types of columns, as JSON.
ghost use Rattle.std.specs.Prelude.{◌≡◌, Some};
ghost use Rattle.json_fields.specs.Columns.{type_named, column_in};
ghost use Rattle.json_fields.specs.Written.{IsJsonOf};

use crate::to_json::ToJson;
use dataset_types::Column;
use serde_json::{Value as Json, json};
use std::alloc::Global;
use value_types::{ColumnType, NoMemory};

/// The name of a type, which `type_field` reads as the type.
pub fn type_word(kind: ColumnType) -> &'static str
    ensures { type_named result.now ≡ Some kind }
{
    match kind {
        ColumnType::Bool => "bool",
        ColumnType::Int => "int",
        ColumnType::Fixed => "fixed",
        ColumnType::Text => "text",
    }
}

impl ToJson for Column {
    ghost says = { IsJsonOf column_in 1 };

    fn to_json(&self, alloc: Global) -> Result<Json, NoMemory> {
        let name = self.name.to_json(alloc)?;
        Ok(json!(in alloc; [name, type_word(self.kind)])?)
    }
}
