//! Whole numbers that count something: positions, versions, places.
ghost use Rattle.std.specs.Prelude.{◌≡◌};
ghost use Rattle.serde_json.specs.View.{view};
ghost use Rattle.json_fields.specs.Json as fields;
ghost use Rattle.json_fields.specs.Numbers as spec;

use serde_json::Value as Json;

fn position_of(json: &Json) -> Option<u32>
    ensures { result ≡ spec.position_in (view json.now) }
{
    match json.as_u64() {
        Some(n) => u32::try_from(n).ok(),
        None => None,
    }
}

/// The whole number from 0 to 4,294,967,295 that a field holds, or none.
///
/// - Source: docs/FORMATS.md, "Edit lines".
pub fn position_field(json: &Json, name: &str) -> Option<u32>
    ensures { result ≡ fields.field spec.position_in name.now (view json.now) }
{
    match json.get(name) {
        Some(value) => position_of(value),
        None => None,
    }
}
