//! Environments: the slot of each name.
ghost use Rattle.std.specs.Prelude.{◌≡◌, ◌++◌, ◌∷◌, [], true, Ok, IfOk, OnOk, OnErr};
ghost use Rattle.std.specs.Option.{option_copied};
ghost use Rattle.dataset_types.specs.Slots.{find_slot};
ghost use Rattle.dataset_types.specs.Envs.{empty_env, look, set_slot, set_name, set_names, blur_env, blur_slots};

use crate::slot::{Named, Slot, Slots};
use std::alloc::Global;
use std::cmp::Ordering;
use std::marker::Model;
use value_types::{ListOf, Name, NoMemory};

/// The names that were written, in ascending order, each with its slot, and whether every other name is in doubt.
#[derive(Drop)]
pub struct Env {
    slots: Slots,
    blurred: bool,
}

impl Model for Env {
    ghost use Rattle.std.specs.Coded.{codes};
    ghost use Rattle.value_types.specs.contracts.row_id.RowId as row_id;
    ghost use Rattle.dataset_types.specs.Envs.{EnvData, IsInOrder};

    ghost Value = { EnvData };

    ghost coded = { Prim.hlevel (codes, row_id.the_row.coded) };

    ghost view = { λ e. record { slots = e.slots; blurred = e.blurred } };

    ghost invariant = { λ e. IsInOrder e.slots };
}

impl Env {
    /// No names, and no doubt.
    #[tactic(auto, using(crate::proofs::EnvLemmas::in_order_none))]
    pub fn new(alloc: Global) -> Result<Env, NoMemory>
        ensures { result ≡ Ok empty_env }
    {
        Ok(Env {
            slots: ListOf::new(alloc)?,
            blurred: false,
        })
    }

    /// The names that are listed, in ascending order, each with its slot.
    pub fn slots(&self) -> &Slots
        ensures { result.now ≡ self.now.slots }
    {
        &self.slots
    }

    /// Whether every name that isn't listed is in doubt.
    pub fn is_blurred(&self) -> bool
        ensures { result ≡ self.now.blurred }
    {
        self.blurred
    }

    /// An equal environment.
    pub fn copy(&self, alloc: Global) -> Result<Env, NoMemory>
        ensures { IfOk result (λ e. e ≡ self.now) }
    {
        Ok(Env {
            slots: self.slots.copy(alloc)?,
            blurred: self.blurred,
        })
    }

    /// The slot of a name. One that isn't listed is absent, in doubt where the environment is blurred.
    pub fn get(&self, alloc: Global, name: &Name) -> Result<Slot, NoMemory>
        ensures { IfOk result (λ s. s ≡ look self.now name.now) }
    {
        match find(self.slots.as_slice(), name) {
            Some(slot) => slot.copy(alloc),
            None => Ok(Slot::absent().blurred(self.blurred)),
        }
    }

    /// The name has this slot.
    #[tactic(auto, using(crate::proofs::EnvLemmas::in_order_set))]
    pub fn set(&mut self, alloc: Global, name: Name, slot: Slot) -> Result<(), NoMemory>
        ensures ok { OnOk result
            (self.new ≡ set_name self.old (record { name = name; slot = slot })) }
        ensures err { OnErr result (self.new ≡ self.old) }
    {
        self.slots = with_slot(alloc, self.slots.as_slice(), Named { name, slot })?;
        Ok(())
    }

    /// The names have these slots, the first of a name's counting.
    pub fn set_all(&mut self, alloc: Global, writes: &[Named]) -> Result<(), NoMemory>
        ensures ok { OnOk result (self.new ≡ set_names self.old writes.now) }
        ensures err { OnErr result (self.new ≡ self.old) }
    {
        let mut after = self.copy(alloc)?;
        let mut i = writes.len();
        while i > 0 {
            i -= 1;
            let write = &writes[i];
            after.set(alloc, write.name.copy(), write.slot.copy(alloc)?)?;
        }
        *self = after;
        Ok(())
    }

    /// Every name is in doubt, whether it is listed or not.
    #[tactic(auto, using(crate::proofs::EnvLemmas::in_order_blur))]
    pub fn blur(&mut self, alloc: Global) -> Result<(), NoMemory>
        ensures ok { OnOk result (self.new ≡ blur_env self.old) }
        ensures err { OnErr result (self.new ≡ self.old) }
    {
        self.slots = in_doubt(alloc, self.slots.as_slice())?;
        self.blurred = true;
        Ok(())
    }
}

fn find<'a>(slots: &'a [Named], name: &Name) -> Option<&'a Slot>
    ensures { option_copied result ≡ find_slot slots.now name.now }
{
    for e in slots {
        if e.name.same(name) {
            return Some(&e.slot);
        }
    }
    None
}

fn with_slot(alloc: Global, slots: &[Named], new: Named) -> Result<Slots, NoMemory>
    ensures { IfOk result (λ s. s ≡ set_slot slots.now new) }
{
    let mut all = ListOf::new(alloc)?;
    for (i, e) in slots.iter().enumerate() {
        match e.name.as_slice().cmp(new.name.as_slice()) {
            Ordering::Less => all.push(alloc, e.copy(alloc)?)?,
            Ordering::Equal => return ended(alloc, all, new, &slots[i + 1..]),
            Ordering::Greater => return ended(alloc, all, new, &slots[i..]),
        }
    }
    all.push(alloc, new)?;
    Ok(all)
}

// The list, then the entry, then copies of the rest.
fn ended(alloc: Global, mut all: Slots, new: Named, rest: &[Named]) -> Result<Slots, NoMemory>
    ensures { IfOk result (λ s. s ≡ all ++ new ∷ rest.now) }
{
    all.push(alloc, new)?;
    for e in rest {
        all.push(alloc, e.copy(alloc)?)?;
    }
    Ok(all)
}

fn in_doubt(alloc: Global, slots: &[Named]) -> Result<Slots, NoMemory>
    ensures { IfOk result (λ s. s ≡ blur_slots true slots.now) }
{
    let mut all = ListOf::new(alloc)?;
    for e in slots {
        let name = e.name.copy();
        let slot = e.slot.copy(alloc)?.blurred(true);
        all.push(alloc, Named { name, slot })?;
    }
    Ok(all)
}
