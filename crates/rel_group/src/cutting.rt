//! Rows sorted by key and cut where the key changes.
ghost use Rattle.std.specs.Prelude.{◌≡◌, [], ◌∷◌, OnOk, IfOk, take};
ghost use Rattle.std.specs.Option.{option_copied};
ghost use Rattle.rel_ops.specs.Sorted.{sorted};
ghost use Rattle.rel_group.specs.Calls.{AreLots, StandFor, key_lt, with_row, taken, finished, cut};
ghost use Rattle.rel_group.specs.Calls.{all_collected, rows_by};

use crate::keyed::{Keyed, keyed_rows};
use crate::keys::compare_keys;
use crate::parts::{Lot, Lots};
use crate::placing::{add_row, begin, few_lots};
use dataset_types::Row;
use std::alloc::Global;
use value_types::{ListOf, NoMemory, Values};

fn sort_rows(rows: &mut Vec<Keyed>) -> Result<(), NoMemory>
    ensures { OnOk result (rows.new.items ≡ sorted key_lt rows.old.items) }
{
    rows.sort_by(|a, b| compare_keys(a.key.as_slice(), b.key.as_slice()))?;
    Ok(())
}

fn go_on(alloc: Global, lot: Lot, row: Keyed) -> Result<Lot, NoMemory>
    ensures { IfOk result (λ g. g ≡ with_row lot row) }
{
    let mut lot = lot;
    add_row(alloc, &mut lot, row)?;
    Ok(lot)
}

/// The last lot with one row more, or the lot that the row begins.
fn take_row(alloc: Global, done: &mut Lots, last: Option<Lot>, row: Keyed) -> Result<Lot, NoMemory>
    ensures { IfOk result (λ g. (done.new, g) ≡ taken done.old last row) }
{
    match last {
        None => begin(alloc, row),
        Some(lot) => {
            if lot.key == row.key {
                go_on(alloc, lot, row)
            } else {
                done.push(alloc, lot)?;
                begin(alloc, row)
            }
        }
    }
}

fn finish(alloc: Global, done: Lots, last: Option<Lot>) -> Result<Lots, NoMemory>
    ensures { IfOk result (λ gs. gs ≡ finished done last) }
{
    let mut done = done;
    match last {
        None => Ok(done),
        Some(lot) => {
            done.push(alloc, lot)?;
            Ok(done)
        }
    }
}

#[tactic(auto, using(crate::proofs::Cuts::cutting))]
fn cut(alloc: Global, rows: Vec<Keyed>) -> Result<Lots, NoMemory>
    ensures { IfOk result (λ gs. gs ≡ cut rows.items) }
{
    let mut done = Lots::new(alloc)?;
    let mut last = None;
    for row in rows {
        last = Some(take_row(alloc, &mut done, last, row)?);
    }
    finish(alloc, done, last)
}

fn collect_rows(alloc: Global, rows: ListOf<Keyed>) -> Result<Lots, NoMemory>
    ensures { IfOk result (λ gs. gs ≡ all_collected rows) }
{
    let mut rows = rows.into_vec();
    sort_rows(&mut rows)?;
    cut(alloc, rows)
}

fn sorted_lots(alloc: Global, keys: Option<&[u32]>, rows: &[Row]) -> Result<Lots, NoMemory>
    ensures { IfOk result (AreLots (option_copied keys.entry) rows.now) }
{
    let rows = keyed_rows(alloc, keys, rows)?;
    collect_rows(alloc, rows)
}

/// A lot for each key, in ascending order.
pub fn keyed_lots(alloc: Global, keys: Option<&[u32]>, rows: &[Row]) -> Result<Lots, NoMemory>
    ensures { IfOk result (AreLots (option_copied keys.entry) rows.now) }
{
    match few_lots(alloc, keys, rows)? {
        Some(lots) => Ok(lots),
        None => sorted_lots(alloc, keys, rows),
    }
}

#[tactic(auto, using(crate::proofs::Lots::counting))]
fn all_places(alloc: Global, rows: &[Row]) -> Result<ListOf<usize>, NoMemory>
    ensures { IfOk result (λ places. rows_by rows.now places ≡ rows.now) }
{
    let mut all = ListOf::new(alloc)?;
    for i in 0..rows.len() {
        all.push(alloc, i)?;
    }
    Ok(all)
}

fn whole_lot(alloc: Global, rows: &[Row]) -> Result<Lots, NoMemory>
    ensures { IfOk result (StandFor [] rows.now) }
{
    let rows = all_places(alloc, rows)?;
    let mut all = Lots::new(alloc)?;
    let key = Values::new(alloc)?;
    all.push(
        alloc,
        Lot {
            key,
            sure: true,
            rows,
        },
    )?;
    Ok(all)
}

/// The lots by these places, and without places one alone.
pub fn lots(alloc: Global, places: &[u32], rows: &[Row]) -> Result<Lots, NoMemory>
    ensures { IfOk result (StandFor places.now rows.now) }
{
    if places.is_empty() {
        whole_lot(alloc, rows)
    } else {
        keyed_lots(alloc, Some(places), rows)
    }
}
