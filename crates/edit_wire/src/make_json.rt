//! Make cells as JSON.
ghost use Rattle.std.specs.Prelude.{IfOk};
ghost use Rattle.serde_json.specs.View.{view};
ghost use Rattle.cell_model.specs.declared.cell.CellKind.TheVariants as cell;
ghost use Rattle.edit_wire.specs.Make.{make_of};
ghost use Rattle.edit_wire.specs.Plain.{IsPlainTable};
ghost use Rattle.json_fields.specs.Written.{IsJsonOf};

use dataset_types::Table;
use json_fields::{ToJson, each_json};
use serde_json::{Value as Json, json};
use std::alloc::Global;
use value_types::{Name, NoMemory};

/// The JSON of a make cell, which is read as this cell.
///
/// - Source: docs/FORMATS.md, "Edit lines".
pub fn make_json(alloc: Global, name: &Name, table: &Table) -> Result<Json, NoMemory>
    requires { IsPlainTable table.now }
    ensures { IfOk result (λ json.
        IsJsonOf make_of 4 (cell.Make name.now table.now) (view json)) }
{
    table.law_of_rules();
    let name = name.to_json(alloc)?;
    let columns = each_json(alloc, table.columns().as_slice())?;
    let rows = each_json(alloc, table.rows().as_slice())?;
    Ok(json!(in alloc; {"make": name, "columns": columns, "rows": rows})?)
}
