//! The fields that the JSON of every spreadsheet cell has.
ghost use Rattle.std.specs.Prelude.{◌≡◌, codes, IfOk};
ghost use Rattle.serde_json.specs.Data.{string, member, no_members};
ghost use Rattle.serde_json.specs.View.{view, members_view};

use serde_json::{Map, Value as Json, put};
use std::alloc::Global;
use value_types::NoMemory;

/// The word of a command and its dataset.
pub fn command_fields(
    alloc: Global,
    word: &str,
    dataset: Json,
) -> Result<Map<String, Json>, NoMemory>
    ensures { IfOk result (λ fields. members_view fields.entries
        ≡ member (codes "dataset") (view dataset)
        (member (codes "vizual") (string word.now) no_members)) }
{
    let mut fields = Map::new(alloc);
    put(
        &mut fields,
        alloc,
        "vizual",
        Json::try_from_str(alloc, word)?,
    )?;
    put(&mut fields, alloc, "dataset", dataset)?;
    Ok(fields)
}
