//! The value of a line.
ghost use Rattle.std.specs.Prelude.{◌≡◌, IfOk, option_map};
ghost use Rattle.serde_json.specs.View.{view};
ghost use Rattle.json_glance.specs.Line as spec;

use serde_json::Value as Json;
use std::alloc::Global;
use value_types::NoMemory;

/// The value that a line is, where it is JSON.
pub fn json_of(alloc: Global, line: &[u8]) -> Result<Option<Json>, NoMemory>
    ensures { IfOk result (λ found. option_map view found ≡ spec.json_of line.now) }
{
    match Json::from_slice(alloc, line) {
        Ok(json) => Ok(Some(json)),
        Err(error) => {
            if error.is_memory() {
                Err(NoMemory)
            } else {
                Ok(None)
            }
        }
    }
}
