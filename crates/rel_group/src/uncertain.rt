//! Whether it is uncertain which rows are in a group.
ghost use Rattle.std.specs.Prelude.{◌≡◌, ◌-◌, slice_get};
ghost use Rattle.std.specs.Option.{option_copied};
ghost use Rattle.std.specs.List.{list_any};
ghost use Rattle.rel_group.specs.Groups as spec;
ghost use Rattle.rel_group.specs.Keys.{items_at};
ghost use Rattle.rel_group.specs.Calls.{is_marked};

use crate::keys::item_at;
use dataset_types::{Marked, Row};
use relations::Rel;

fn is_marked_at(values: &[Marked], place: u32) -> bool
    ensures { result ≡ is_marked (slice_get values.now (place - 1)) }
{
    match item_at(values, place) {
        None => false,
        Some(value) => value.marked,
    }
}

fn any_place_marked(places: &[u32], values: &[Marked]) -> bool
    ensures { result ≡ list_any (λ p. is_marked (slice_get values.now (p - 1))) places.now }
{
    places.iter().any(|place| is_marked_at(values, *place))
}

fn any_marked_at(places: &[u32], values: &[Marked]) -> bool
    ensures { result ≡ list_any (λ m. m.marked) (items_at places.now values.now) }
{
    any_place_marked(places, values)
}

/// Whether a value of its key is marked.
pub fn has_marked_key(keys: Option<&[u32]>, row: &Row) -> bool
    ensures { result ≡ spec.has_marked_key (option_copied keys.entry) row.now }
{
    let values = row.values.as_slice();
    match keys {
        None => values.iter().any(|value| value.marked),
        Some(places) => any_marked_at(places, values),
    }
}

fn any_marked_key(keys: Option<&[u32]>, rows: &[Row]) -> bool
    ensures { result ≡ list_any (spec.has_marked_key (option_copied keys.entry)) rows.now }
{
    rows.iter().any(|row| has_marked_key(keys, row))
}

/// Whether the relation is open or a row's key is marked.
pub fn is_uncertain(keys: Option<&[u32]>, rel: &Rel) -> bool
    ensures { result ≡ spec.is_uncertain (option_copied keys.entry) rel.now }
{
    rel.is_open() || any_marked_key(keys, rel.rows().as_slice())
}
