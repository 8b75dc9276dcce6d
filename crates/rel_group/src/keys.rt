//! The columns of a key, by their places.
ghost use Rattle.std.specs.Prelude.{◌++◌, OnOk, ◌≡◌, ◌-◌, ◌==◌, IsTrue, IfOk, slice_get};
ghost use Rattle.std.specs.Option.{option_copied};
ghost use Rattle.std.specs.List.{list_any};
ghost use Rattle.relations.specs.Conditions.{kept_if};
ghost use Rattle.rel_group.specs.Keys as spec;
ghost use Rattle.rel_group.specs.Keys.{is_place, items_at, key_cmp, once};

use relations::{ColumnRefs, Rel};
use std::alloc::Global;
use std::cmp::Ordering;
use value_types::{Copied, ListOf, NoMemory, Value, compare};

/// Whether each of these is the place of a column, counted from 1.
pub fn are_places(rel: &Rel, places: &ColumnRefs) -> bool
    ensures { result ≡ spec.are_places rel.now.columns places.now }
{
    let count = rel.columns().len();
    places
        .as_slice()
        .iter()
        .all(|place| 1 <= *place && *place as usize <= count)
}

/// The item at a place, counted from 1; 0 is read as 1.
pub fn item_at<T>(items: &[T], place: u32) -> Option<&T>
    ensures { option_copied result ≡ slice_get items.now (place - 1) }
{
    items.get((place as usize).saturating_sub(1))
}

/// The items at these places.
#[tactic(auto, using(crate::proofs::Places::placing))]
pub fn items_at<T: Copied + Drop>(
    alloc: Global,
    places: &[u32],
    items: &[T],
) -> Result<ListOf<T>, NoMemory>
    ensures { IfOk result (λ xs. xs ≡ items_at places.now items.now) }
{
    let mut all = ListOf::new(alloc)?;
    for place in places {
        if let Some(item) = item_at(items, *place) {
            all.push(alloc, item.copied(alloc)?)?;
        }
    }
    Ok(all)
}

/// By the first value that differs.
pub fn compare_keys(a: &[Value], b: &[Value]) -> Ordering
    ensures { result ≡ key_cmp a.now b.now }
{
    for i in 0..a.len() {
        if b.len() <= i {
            return Ordering::Greater;
        }
        match compare(&a[i], &b[i]) {
            Ordering::Equal => {}
            order => return order,
        }
    }
    if a.len() < b.len() {
        Ordering::Less
    } else {
        Ordering::Equal
    }
}

/// Whether a place came before.
fn came_before(seen: &[u32], place: u32) -> bool
    ensures { result ≡ list_any (λ q. q == place) seen.now }
{
    seen.iter().any(|other| *other == place)
}

fn note(seen: &mut Vec<u32>, place: u32, is_new: bool) -> Result<(), NoMemory>
    ensures { OnOk result (seen.new.items ≡ seen.old.items ++ kept_if is_new place) }
{
    if is_new {
        seen.push(place)?;
    }
    Ok(())
}

fn push_if<T: Copied + Drop>(
    alloc: Global,
    all: &mut ListOf<T>,
    item: &T,
    wanted: bool,
) -> Result<(), NoMemory>
    ensures { OnOk result (all.new ≡ all.old ++ kept_if wanted item.now) }
{
    if wanted {
        all.push(alloc, item.copied(alloc)?)?;
    }
    Ok(())
}

/// The items beside their places, each place once.
#[tactic(auto, using(crate::proofs::Places::dropping))]
pub fn once<T: Copied + Drop>(
    alloc: Global,
    places: &[u32],
    items: &[T],
) -> Result<ListOf<T>, NoMemory>
    ensures { IfOk result (λ xs. xs ≡ once places.now items.now) }
{
    let mut all = ListOf::new(alloc)?;
    // A place is noted once, so there are no more to look through than there are columns.
    let mut seen = Vec::new(alloc);
    for i in 0..places.len() {
        if items.len() <= i {
            return Ok(all);
        }
        let is_new = !came_before(seen.as_slice(), places[i]);
        note(&mut seen, places[i], is_new)?;
        push_if(alloc, &mut all, &items[i], is_new)?;
    }
    Ok(all)
}
