//! The values of CAVEAT.
ghost use Rattle.std.specs.Prelude.{◌≡◌, IfOk};
ghost use Rattle.expr_meaning.specs.Picked as spec;

use dataset_types::{Choice, Picks, Site};
use std::alloc::Global;
use value_types::{NoMemory, Value};

/// Whether a pick may stand for a value.
fn may_stand(value: &Value, pick: &Value) -> bool
    ensures { result ≡ spec.may_stand value.now pick.now }
{
    match (value, pick) {
        (Value::Null, _) => false,
        (_, Value::Null)
        | (Value::Bool(_), Value::Bool(_))
        | (Value::Int(_), Value::Int(_))
        | (Value::Fixed(_), Value::Fixed(_))
        | (Value::Text(_), Value::Text(_)) => true,
        _ => false,
    }
}

/// The value, or the one that is picked for it at this call of CAVEAT.
pub(crate) fn picked(
    alloc: Global,
    picks: &Picks,
    cell: u32,
    call: u32,
    value: Value,
) -> Result<Value, NoMemory>
    ensures { IfOk result (λ v. v ≡ spec.picked picks.now cell call value) }
{
    match picks.choice(cell, &Site::Call { call }) {
        Some(Choice::Value(pick)) => {
            if may_stand(&value, pick) {
                pick.copy(alloc)
            } else {
                Ok(value)
            }
        }
        Some(Choice::Keep(_)) => Ok(value),
        None => Ok(value),
    }
}
