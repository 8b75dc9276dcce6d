//! Ints that go into Fixed columns.
ghost use Rattle.std.specs.Prelude.{◌≡◌};
ghost use Rattle.edit_results.specs.Widening as spec;

use cell_errors::CellError;
use value_types::{Value, widen};

/// An Int as a Fixed: its widening.
///
/// - Error: `Overflow` where it has none.
/// - Source: docs/FORMATS.md, "Values and row ids", the rule on widening.
pub fn as_fixed(n: i64) -> Result<Value, CellError>
    ensures { result ≡ spec.as_fixed n }
{
    match widen(n) {
        Some(count) => Ok(Value::Fixed(count)),
        None => Err(CellError::Overflow),
    }
}
