//! Laws of environments and tables.
ghost use Rattle.std.specs.Prelude.{◌≡◌, length};
ghost use Rattle.dataset_types.specs.Tables.{Distinct, row_ids, numbered};
ghost use Rattle.dataset_types.specs.Envs.{IsInOrder, ReadsAfterWrites, set_slot};

use crate::env::Env;
use crate::row::Rows;
use crate::slot::{Named, Slots};
use value_types::Name;

/// Reading after a blur and writes.
pub fn law_of_reading(env: &Env, blur: bool, writes: &Slots, name: &Name)
    ensures { ReadsAfterWrites env.now blur writes.now name.now }
{}

/// Setting a name keeps the order of names.
pub fn law_of_order(slots: &Slots, new: &Named)
    ensures { IsInOrder slots.now → IsInOrder (set_slot slots.now new.now) }
{}

/// Rows that are numbered from 1 have distinct ids.
pub fn law_of_numbers(rows: &Rows)
    ensures { row_ids rows.now ≡ numbered (length rows.now) → Distinct (row_ids rows.now) }
{}
