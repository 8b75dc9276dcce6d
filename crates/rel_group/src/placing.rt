//! Rows put one after another into the lots of their keys.
ghost use Rattle.std.specs.Prelude.{◌≡◌, IfOk, IfSome, OnOk};
ghost use Rattle.std.specs.Option.{option_copied};
ghost use Rattle.rel_group.specs.Calls as calls;
ghost use Rattle.rel_group.specs.Calls.{AreLots, placed, single, with_row};

use crate::keyed::{Keyed, with_key};
use crate::keys::compare_keys;
use crate::parts::{Lot, Lots};
use dataset_types::Row;
use std::alloc::Global;
use value_types::{ListOf, NoMemory, Value, Values};

/// Where there are more lots than these, it takes less time to sort the rows by key.
const FEW: usize = 32;

/// How many lots come before a key.
#[tactic(auto, using(crate::proofs::Placed::passing))]
fn lots_before(lots: &[Lot], key: &[Value]) -> usize
    ensures { result ≡ calls.lots_before key.now lots.now }
{
    for i in 0..lots.len() {
        if !compare_keys(key, lots[i].key.as_slice()).is_gt() {
            return i;
        }
    }
    lots.len()
}

/// Whether the lot at a place has this key.
fn has_key(lots: &[Lot], at: usize, key: &Values) -> bool
    ensures { result ≡ calls.has_key lots.now at key.now }
{
    match lots.get(at) {
        None => false,
        Some(lot) => lot.key == *key,
    }
}

/// A lot of one row.
pub fn begin(alloc: Global, row: Keyed) -> Result<Lot, NoMemory>
    ensures { IfOk result (λ g. g ≡ single row) }
{
    let Keyed { key, certain, row } = row;
    let mut rows = ListOf::new(alloc)?;
    rows.push(alloc, row)?;
    Ok(Lot {
        key,
        sure: certain,
        rows,
    })
}

/// A row more in its lot.
pub fn add_row(alloc: Global, lot: &mut Lot, row: Keyed) -> Result<(), NoMemory>
    ensures { OnOk result (lot.new ≡ with_row lot.old row) }
{
    let Keyed { certain, row, .. } = row;
    lot.sure |= certain;
    lot.rows.push(alloc, row)?;
    Ok(())
}

/// A row more, in its lot or in a new one.
fn put_row(alloc: Global, lots: &mut Vec<Lot>, row: Keyed) -> Result<(), NoMemory>
    ensures { OnOk result (lots.new.items ≡ placed lots.old.items row) }
{
    let at = lots_before(lots.as_slice(), row.key.as_slice());
    if has_key(lots.as_slice(), at, &row.key) {
        add_row(alloc, &mut lots[at], row)
    } else {
        let lot = begin(alloc, row)?;
        lots.insert(at, lot)?;
        Ok(())
    }
}

/// A lot for each key, in ascending order; none where there are more than few.
#[tactic(auto, using(crate::proofs::Placed::placing))]
pub fn few_lots(alloc: Global, keys: Option<&[u32]>, rows: &[Row]) -> Result<Option<Lots>, NoMemory>
    ensures { IfOk result (λ few. IfSome few (AreLots (option_copied keys.entry) rows.now)) }
{
    let mut all = Vec::new(alloc);
    for i in 0..rows.len() {
        if FEW < all.len() {
            return Ok(None);
        }
        let keyed = with_key(alloc, keys, i, &rows[i])?;
        put_row(alloc, &mut all, keyed)?;
    }
    Ok(Some(Lots::from_vec(alloc, all)?))
}
