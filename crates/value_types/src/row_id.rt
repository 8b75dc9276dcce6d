//! The ids of rows.
ghost use Rattle.std.specs.Prelude.{◌≡◌, IfOk};
ghost use Rattle.value_types.specs.SameIds.{same_id};

use crate::list::Copied;
use crate::memory::NoMemory;
use crate::name::Name;
use crate::value::Values;
use sqlite_items::Boxed;
use std::alloc::Global;

/// The id of a row, distinct within its dataset.
#[derive(Drop)]
pub enum RowId {
    /// Row n of a make cell, or record n of a load.
    Rec(u32),
    /// An inserted row.
    Named(Name),
    /// Row k that was emitted to a builder.
    Emit(u32),
    /// A joined row.
    Pair(Boxed<RowId>, Boxed<RowId>),
    /// A left row without a partner.
    Alone(Boxed<RowId>),
    /// A row of the left side of UNION ALL.
    First(Boxed<RowId>),
    /// A row of its right side.
    Second(Boxed<RowId>),
    /// The row of a group.
    Key(Values),
}

impl RowId {
    /// An equal id.
    pub fn copy(&self, alloc: Global) -> Result<RowId, NoMemory>
        ensures { IfOk result (λ id. id ≡ self.now) }
    {
        match self {
            RowId::Rec(n) => Ok(RowId::Rec(*n)),
            RowId::Named(name) => Ok(RowId::Named(name.copy())),
            RowId::Emit(n) => Ok(RowId::Emit(*n)),
            RowId::Pair(left, right) => {
                let left = Boxed::new(alloc, left.get().copy(alloc)?)?;
                let right = Boxed::new(alloc, right.get().copy(alloc)?)?;
                Ok(RowId::Pair(left, right))
            }
            RowId::Alone(of) => Ok(RowId::Alone(Boxed::new(alloc, of.get().copy(alloc)?)?)),
            RowId::First(of) => Ok(RowId::First(Boxed::new(alloc, of.get().copy(alloc)?)?)),
            RowId::Second(of) => Ok(RowId::Second(Boxed::new(alloc, of.get().copy(alloc)?)?)),
            RowId::Key(values) => Ok(RowId::Key(values.copy(alloc)?)),
        }
    }
}

#[tactic(auto, using(crate::proofs::SameIdLaws::same_ids))]
fn same_ids(a: &RowId, b: &RowId) -> bool
    ensures { result ≡ same_id a.now b.now }
{
    match (a, b) {
        (RowId::Rec(m), RowId::Rec(n)) | (RowId::Emit(m), RowId::Emit(n)) => *m == *n,
        (RowId::Named(m), RowId::Named(n)) => m.same(n),
        (RowId::Pair(a, b), RowId::Pair(c, d)) => {
            same_ids(a.get(), c.get()) && same_ids(b.get(), d.get())
        }
        (RowId::Alone(a), RowId::Alone(b))
        | (RowId::First(a), RowId::First(b))
        | (RowId::Second(a), RowId::Second(b)) => same_ids(a.get(), b.get()),
        (RowId::Key(a), RowId::Key(b)) => *a == *b,
        _ => false,
    }
}

impl PartialEq for RowId {
    ghost use Rattle.std.specs.Cmp.{partial_equiv_from_equiv};
    ghost use Rattle.value_types.specs.SameIds.{same_id, id_equiv};

    ghost eq = { same_id };

    ghost laws = { partial_equiv_from_equiv id_equiv };

    fn eq(&self, other: &RowId) -> bool {
        same_ids(self, other)
    }
}

impl Eq for RowId {
    ghost use Rattle.value_types.specs.SameIds.{id_equiv};

    ghost laws = { id_equiv };
}

impl Copied for RowId {
    fn copied(&self, alloc: Global) -> Result<RowId, NoMemory> {
        self.copy(alloc)
    }
}
