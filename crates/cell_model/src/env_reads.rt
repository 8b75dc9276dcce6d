//! Reads over an environment.
ghost use Rattle.std.specs.Prelude.{◌≡◌, [], ◌++◌, ◌∷◌, Some, None, IfOk, OnOk, OnErr};
ghost use Rattle.cell_model.specs.Reading.{EnvReadsData, noted};

use crate::cell_result::has_name;
use crate::reads::{Ended, Reads};
use dataset_types::{Env, Named, Slot, Slots};
use std::alloc::Global;
use std::marker::Model;
use value_types::{Name, NoMemory};

/// Reads that an environment answers. They end for want of memory alone.
#[derive(Drop)]
pub struct EnvReads<'e> {
    env: &'e Env,
    asked: Slots,
}

impl<'e> Model for EnvReads<'e> {
    ghost use Rattle.std.specs.Coded.{codes};
    ghost use Rattle.value_types.specs.contracts.row_id.RowId as row_id;
    ghost use Rattle.cell_model.specs.Reading.{EnvReadsData, IsAsked};

    ghost Value = { EnvReadsData };

    ghost coded = { Prim.hlevel (codes, row_id.the_row.coded) };

    ghost view = { λ r. record { env = r.env.now; asked = r.asked } };

    ghost invariant = { λ r. IsAsked r.env.now r.asked };
}

impl<'e> EnvReads<'e> {
    /// No name was asked yet.
    pub fn new(alloc: Global, env: &'e Env) -> Result<EnvReads<'e>, NoMemory>
        ensures { IfOk result (λ r. r ≡ record { env = env.now; asked = [] }) }
    {
        Ok(EnvReads {
            env,
            asked: Slots::new(alloc)?,
        })
    }
}

// Puts the slot of a name last, where the name isn't listed yet.
fn note(alloc: Global, asked: &mut Slots, name: &Name, slot: &Slot) -> Result<(), NoMemory>
    ensures ok { OnOk result (asked.new ≡ noted asked.old name.now slot.now) }
    ensures err { OnErr result (asked.new ≡ asked.old) }
{
    if has_name(asked.as_slice(), name) {
        return Ok(());
    }
    let name = name.copy();
    let slot = slot.copy(alloc)?;
    asked.push(alloc, Named { name, slot })
}

impl<'e> Reads for EnvReads<'e> {
    ghost use Rattle.std.specs.Prelude.{Some, None};
    ghost use Rattle.dataset_types.specs.Envs.{look};

    ghost asked = { λ r. r.asked };

    ghost ended = { λ _. None };

    ghost source = { λ r. Some (look r.env) };

    fn read(&mut self, alloc: Global, name: &Name) -> Result<Slot, Ended> {
        let slot = self.env.get(alloc, name)?;
        note(alloc, &mut self.asked, name, &slot)?;
        Ok(slot)
    }

    fn answered(&self, alloc: Global) -> Result<Slots, NoMemory> {
        self.asked.copy(alloc)
    }
}
