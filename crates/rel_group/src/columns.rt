//! The columns of a key.
ghost use Rattle.std.specs.Prelude.{◌≡◌, IfOk};
ghost use Rattle.rel_group.specs.Groups as groups;

use crate::keys::{items_at, once};
use expr_meaning::Scope;
use std::alloc::Global;
use value_types::NoMemory;

/// The columns of a key, each once.
pub fn key_columns(alloc: Global, columns: &Scope, places: &[u32]) -> Result<Scope, NoMemory>
    ensures { IfOk result (λ cs. cs ≡ groups.key_columns columns.now places.now) }
{
    let all = items_at(alloc, places, columns.as_slice())?;
    once(alloc, places, all.as_slice())
}
