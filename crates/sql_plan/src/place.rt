//! The places of columns, counted from 1.
ghost use Rattle.std.specs.Prelude.{◌≡◌, ◌+◌, ◌^◌, IfOk, is_ok, nat_lt};
ghost use Rattle.cell_errors.specs.Answers.{Gives};
ghost use Rattle.sql_plan.specs.Places as spec;

use cell_errors::EvalFault;
use relations::ColumnPlaces;
use value_types::{Name, NoMemory};

/// A place that is counted from 0, counted from 1. Those beyond 4,294,967,295 are none here, as if there were no memory.
fn from_one(place: usize) -> Result<u32, NoMemory>
    ensures value { IfOk result (λ counted. counted ≡ place + 1) }
    ensures fits { is_ok result ≡ nat_lt (place + 1) (2 ^ 32) }
{
    let place = u32::try_from(place).map_err(|_| NoMemory)?;
    place.checked_add(1).ok_or(NoMemory)
}

/// The place of the column that a name stands for.
///
/// - Error: `NoColumn` where there is none, or two of them.
pub(crate) fn named_place(
    places: &ColumnPlaces,
    qualifier: &Option<Name>,
    name: &Name,
) -> Result<u32, EvalFault>
    ensures { Gives result (spec.named_place places.now qualifier.now name.now) }
{
    let place = places.place_of(qualifier, name)?;
    Ok(from_one(place)?)
}
