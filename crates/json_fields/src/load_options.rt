//! The options of a load in JSON: the types of its columns, and what repairs a field.
ghost use Rattle.std.specs.Prelude.{◌≡◌, IfOk};
ghost use Rattle.serde_json.specs.View.{items_view};
ghost use Rattle.json_fields.specs.LoadOptions as spec;

use crate::column::type_named;
use crate::from_json::{FromJson, all_of};
use dataset_types::{Repair, Types};
use serde_json::Value as Json;
use std::alloc::Global;
use value_types::{ColumnType, ListOf, NoMemory};

impl FromJson for Option<ColumnType> {
    ghost meaning = { spec.declared_in };

    fn from_json(_alloc: Global, json: &Json) -> Result<Option<Option<ColumnType>>, NoMemory> {
        match json.as_str() {
            Some("guess") => Ok(Some(None)),
            Some(word) => Ok(type_named(word).map(Some)),
            None => Ok(None),
        }
    }
}

fn types_of(alloc: Global, list: &[Json]) -> Result<Option<Types>, NoMemory>
    ensures { IfOk result (λ found. found ≡ spec.types_of (items_view list.now)) }
{
    match all_of(alloc, list)? {
        Some(types) if types.len() <= 32 => Ok(Some(ListOf::from_vec(alloc, types)?)),
        _ => Ok(None),
    }
}

impl FromJson for Types {
    ghost meaning = { spec.types_in };

    fn from_json(alloc: Global, json: &Json) -> Result<Option<Types>, NoMemory> {
        match json.as_array() {
            Some(list) => types_of(alloc, list),
            None => Ok(None),
        }
    }
}

impl FromJson for Repair {
    ghost meaning = { spec.repair_in };

    fn from_json(_alloc: Global, json: &Json) -> Result<Option<Repair>, NoMemory> {
        match json.as_str() {
            Some("null") => Ok(Some(Repair::Null)),
            Some("zero") => Ok(Some(Repair::Zero)),
            _ => Ok(None),
        }
    }
}
