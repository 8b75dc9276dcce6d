//! The options of a load as JSON.
ghost use Rattle.std.specs.Prelude.{◌≡◌, Some};
ghost use Rattle.json_fields.specs.LoadOptions.{declared_named, declared_in, repair_named};
ghost use Rattle.json_fields.specs.Written.{IsJsonOf};

use crate::column_json::type_word;
use crate::to_json::ToJson;
use dataset_types::Repair;
use serde_json::Value as Json;
use std::alloc::Global;
use value_types::{ColumnType, NoMemory};

#[tactic(auto, using(crate::proofs::Back::declared_type))]
fn declared_word(declared: Option<ColumnType>) -> &'static str
    ensures { declared_named result.now ≡ Some declared }
{
    match declared {
        Some(kind) => type_word(kind),
        None => "guess",
    }
}

/// The name of a repair, which `field` reads as the repair.
pub fn repair_word(repair: Repair) -> &'static str
    ensures { repair_named result.now ≡ Some repair }
{
    match repair {
        Repair::Null => "null",
        Repair::Zero => "zero",
    }
}

impl ToJson for Option<ColumnType> {
    ghost says = { IsJsonOf declared_in 0 };

    fn to_json(&self, alloc: Global) -> Result<Json, NoMemory> {
        Ok(Json::try_from_str(alloc, declared_word(*self))?)
    }
}
