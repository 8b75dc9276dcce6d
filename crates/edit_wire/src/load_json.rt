//! Load cells as JSON.
ghost use Rattle.std.specs.Prelude.{IfOk};
ghost use Rattle.serde_json.specs.View.{view};
ghost use Rattle.edit_wire.specs.declared.edit.EditCell.TheVariants as from;
ghost use Rattle.edit_wire.specs.Cells.{cell_of};
ghost use Rattle.edit_wire.specs.Plain.{IsPlainCell};
ghost use Rattle.json_fields.specs.Written.{IsJsonOf};

use dataset_types::{Repair, Types};
use json_fields::{ToJson, each_json, repair_word};
use serde_json::{Value as Json, json};
use std::alloc::Global;
use value_types::{Name, NoMemory, Words};

/// The JSON of a load cell, which is read as this cell.
///
/// - Shape: all four fields, `types` and `repair` included where a line need not say them.
/// - Source: docs/FORMATS.md, "Edit lines".
pub fn load_json(
    alloc: Global,
    name: &Name,
    file: &Words,
    types: &Types,
    repair: Repair,
) -> Result<Json, NoMemory>
    requires { IsPlainCell (from.Load name.now file.now types.now repair) }
    ensures { IfOk result (λ json.
        IsJsonOf cell_of 4 (from.Load name.now file.now types.now repair) (view json)) }
{
    let name = name.to_json(alloc)?;
    let types = each_json(alloc, types.as_slice())?;
    let word = repair_word(repair);
    Ok(json!(in alloc; {"load": name, "file": file.as_text(), "types": types, "repair": word})?)
}
