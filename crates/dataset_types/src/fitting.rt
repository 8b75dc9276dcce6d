//! Values as those of a type.
ghost use Rattle.std.specs.Prelude.{◌≡◌};
ghost use Rattle.dataset_types.specs.Fitting as spec;

use value_types::{ColumnType, Value, widen};

/// A value as one of a type: widened from Int to Fixed, or as it is where it fits.
///
/// - Source: docs/FORMATS.md, "Make cells".
pub fn fitted(kind: ColumnType, value: Value) -> Option<Value>
    ensures { result ≡ spec.fitted kind value }
{
    match (kind, value) {
        (ColumnType::Fixed, Value::Int(n)) => widen(n).map(Value::Fixed),
        (_, Value::Null) => Some(Value::Null),
        (ColumnType::Bool, Value::Bool(truth)) => Some(Value::Bool(truth)),
        (ColumnType::Int, Value::Int(n)) => Some(Value::Int(n)),
        (ColumnType::Fixed, Value::Fixed(n)) => Some(Value::Fixed(n)),
        (ColumnType::Text, Value::Text(text)) => Some(Value::Text(text)),
        _ => None,
    }
}
