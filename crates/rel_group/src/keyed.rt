//! Rows with their keys.
ghost use Rattle.std.specs.Prelude.{◌≡◌, IfOk, map};
ghost use Rattle.std.specs.Option.{option_copied};
ghost use Rattle.rel_group.specs.Keys.{items_at, key_of};
ghost use Rattle.rel_group.specs.Calls.{all_keyed, with_key};

use crate::keys::item_at;
use crate::uncertain::has_marked_key;
use dataset_types::{Marked, Row};
use std::alloc::Global;
use value_types::{ListOf, NoMemory, Values};

/// A row as it is grouped.
#[derive(Drop)]
pub struct Keyed {
    pub key: Values,
    /// Whether it is certain that the row is in its group.
    pub certain: bool,
    /// The place of the row, counted from 0.
    pub row: usize,
}

fn all_values(alloc: Global, values: &[Marked]) -> Result<Values, NoMemory>
    ensures { IfOk result (λ vs. vs ≡ map (λ m. m.value) values.now) }
{
    let mut all = Values::new(alloc)?;
    for marked in values {
        all.push(alloc, marked.value.copy(alloc)?)?;
    }
    Ok(all)
}

#[tactic(auto, using(crate::proofs::Places::reading))]
fn values_at(alloc: Global, places: &[u32], values: &[Marked]) -> Result<Values, NoMemory>
    ensures { IfOk result (λ vs. vs ≡ map (λ m. m.value) (items_at places.now values.now)) }
{
    let mut all = Values::new(alloc)?;
    for place in places {
        if let Some(marked) = item_at(values, *place) {
            all.push(alloc, marked.value.copy(alloc)?)?;
        }
    }
    Ok(all)
}

fn key_values(alloc: Global, keys: Option<&[u32]>, values: &[Marked]) -> Result<Values, NoMemory>
    ensures { IfOk result
        (λ vs. vs ≡ map (λ m. m.value) (key_of (option_copied keys.entry) values.now)) }
{
    match keys {
        None => all_values(alloc, values),
        Some(places) => values_at(alloc, places, values),
    }
}

/// The row at a place with its key.
pub fn with_key(
    alloc: Global,
    keys: Option<&[u32]>,
    at: usize,
    row: &Row,
) -> Result<Keyed, NoMemory>
    ensures { IfOk result (λ x. x ≡ with_key (option_copied keys.entry) at row.now) }
{
    let certain = row.sure & !has_marked_key(keys, row);
    Ok(Keyed {
        key: key_values(alloc, keys, row.values.as_slice())?,
        certain,
        row: at,
    })
}

/// The rows with their keys, in their order.
#[tactic(auto, using(crate::proofs::KeyedGroups::keying))]
pub fn keyed_rows(
    alloc: Global,
    keys: Option<&[u32]>,
    rows: &[Row],
) -> Result<ListOf<Keyed>, NoMemory>
    ensures { IfOk result (λ xs. xs ≡ all_keyed (option_copied keys.entry) rows.now) }
{
    let mut all = ListOf::new(alloc)?;
    for i in 0..rows.len() {
        all.push(alloc, with_key(alloc, keys, i, &rows[i])?)?;
    }
    Ok(all)
}
