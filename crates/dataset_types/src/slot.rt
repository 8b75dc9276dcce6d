//! Slots: what a name holds.
ghost use Rattle.std.specs.Prelude.{◌≡◌, ◌↔◌, IsTrue, IfOk};
ghost use Rattle.dataset_types.specs.Slots.{absent, blurred};

use crate::table::{Table, table_same};
use std::alloc::Global;
use value_types::{ArcOf, Copied, ListOf, Name, NoMemory};

/// The dataset that a name holds, or none, and whether that is in doubt. A copy shares the table.
#[derive(Drop)]
pub struct Slot {
    pub table: Option<ArcOf<Table>>,
    pub doubt: bool,
}

/// A name with its slot.
#[derive(Drop)]
pub struct Named {
    pub name: Name,
    pub slot: Slot,
}

/// A list of names with their slots.
pub type Slots = ListOf<Named>;

impl Slot {
    /// No dataset, without doubt.
    pub fn absent() -> Slot
        ensures { result ≡ absent }
    {
        Slot {
            table: None,
            doubt: false,
        }
    }

    /// With doubt added where a blur is over it.
    pub fn blurred(self, blur: bool) -> Slot
        ensures { result ≡ blurred blur self }
    {
        Slot {
            table: self.table,
            doubt: blur || self.doubt,
        }
    }

    /// An equal slot.
    pub fn copy(&self, alloc: Global) -> Result<Slot, NoMemory>
        ensures { IfOk result (λ s. s ≡ self.now) }
    {
        let table = match &self.table {
            Some(table) => Some(table.copy(alloc)?),
            None => None,
        };
        Ok(Slot {
            table,
            doubt: self.doubt,
        })
    }
}

impl Named {
    /// An equal entry.
    pub fn copy(&self, alloc: Global) -> Result<Named, NoMemory>
        ensures { IfOk result (λ n. n ≡ self.now) }
    {
        Ok(Named {
            name: self.name.copy(),
            slot: self.slot.copy(alloc)?,
        })
    }
}

impl Copied for Named {
    fn copied(&self, alloc: Global) -> Result<Named, NoMemory> {
        self.copy(alloc)
    }
}

/// Whether two slots are one by value, marks and flags included. It takes no memory.
pub fn slot_same(a: &Slot, b: &Slot) -> bool
    ensures { IsTrue result ↔ (a.now ≡ b.now) }
{
    let same = match (&a.table, &b.table) {
        (Some(a), Some(b)) => table_same(a.get(), b.get()),
        (None, None) => true,
        _ => false,
    };
    same && a.doubt == b.doubt
}
