//! Names, added one after another.
ghost use Rattle.std.specs.Prelude.{◌≡◌, OnOk};
ghost use Rattle.name_lists.specs.Nub as spec;

use std::alloc::Global;
use value_types::{Name, Names, NoMemory};

/// Whether the name is among these.
fn contains(names: &Names, name: &Name) -> bool
    ensures { result ≡ spec.contains names.now name.now }
{
    names.as_slice().iter().any(|n| n.same(name))
}

/// The names with this one too, the last, if it isn't there.
pub fn add_name(alloc: Global, names: &mut Names, name: &Name) -> Result<(), NoMemory>
    ensures { OnOk result (names.new ≡ spec.added names.old name.now) }
{
    if !contains(names, name) {
        names.push(alloc, name.copy())?;
    }
    Ok(())
}
