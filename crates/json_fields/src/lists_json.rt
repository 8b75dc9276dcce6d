//! Columns to sort by as JSON.
ghost use Rattle.std.specs.Prelude.{◌≡◌, Some};
ghost use Rattle.json_fields.specs.Lists.{order_named, sort_name_in};
ghost use Rattle.json_fields.specs.Written.{IsJsonOf};

use crate::to_json::ToJson;
use serde_json::{Value as Json, json};
use sheet_commands::SortName;
use std::alloc::Global;
use value_types::NoMemory;

fn order_word(descending: bool) -> &'static str
    ensures { order_named result.now ≡ Some descending }
{
    if descending { "desc" } else { "asc" }
}

impl ToJson for SortName {
    ghost says = { IsJsonOf sort_name_in 1 };

    fn to_json(&self, alloc: Global) -> Result<Json, NoMemory> {
        let name = self.name.to_json(alloc)?;
        Ok(json!(in alloc; [name, order_word(self.descending)])?)
    }
}
