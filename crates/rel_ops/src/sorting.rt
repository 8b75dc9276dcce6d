//! ORDER BY.
ghost use Rattle.std.specs.Prelude.{◌≡◌, ◌↔◌, ◌-◌, IsTrue, IfOk, OnOk};
ghost use Rattle.std.specs.List.{list_any};
ghost use Rattle.std.specs.List.Sorted.{IsSortedBy};
ghost use Rattle.cell_errors.specs.Answers.{Gives};
ghost use Rattle.rel_ops.specs.Sort as spec;
ghost use Rattle.rel_ops.specs.Sort.{value_at_key, marked_at_key, key_cmp, keys_cmp, keys_lt};
ghost use Rattle.rel_ops.specs.Sort.{in_order, ordered};

use cell_errors::EvalFault;
use dataset_types::{Row, Rows};
use relations::{Rel, RelParts, SortKey, SortKeys};
use std::alloc::Global;
use std::cmp::Ordering;
use value_types::{NoMemory, Value, compare};

fn place_of(key: SortKey) -> usize
    ensures { result ≡ key.column - 1 }
{
    (key.column as usize).saturating_sub(1)
}

fn compare_at(key: SortKey, a: &Row, b: &Row) -> Ordering
    ensures { result ≡ key_cmp value_at_key key a.now b.now }
{
    let place = place_of(key);
    let null = Value::Null;
    let x = if place < a.values.len() {
        &a.values.as_slice()[place].value
    } else {
        &null
    };
    let y = if place < b.values.len() {
        &b.values.as_slice()[place].value
    } else {
        &null
    };
    let order = compare(x, y);
    if key.descending {
        order.reverse()
    } else {
        order
    }
}

fn compare_rows(keys: &[SortKey], a: &Row, b: &Row) -> Ordering
    ensures { result ≡ keys_cmp value_at_key keys.now a.now b.now }
{
    for key in keys {
        match compare_at(*key, a, b) {
            Ordering::Equal => {}
            order => return order,
        }
    }
    Ordering::Equal
}

fn sort_rows(rows: &mut Vec<Row>, keys: &[SortKey]) -> Result<(), NoMemory>
    ensures { OnOk result (rows.new.items ≡ in_order keys.now rows.old.items) }
{
    rows.sort_by(|a, b| compare_rows(keys, a, b))?;
    Ok(())
}

fn sorted_rows(alloc: Global, rows: Rows, keys: &[SortKey]) -> Result<Rows, NoMemory>
    ensures { IfOk result (λ r. r ≡ in_order keys.now rows) }
{
    let mut rows = rows.into_vec();
    sort_rows(&mut rows, keys)?;
    Rows::from_vec(alloc, rows)
}

fn is_marked_at(key: SortKey, row: &Row) -> bool
    ensures { result ≡ (marked_at_key key row.now).marked }
{
    let place = place_of(key);
    if place < row.values.len() {
        row.values.as_slice()[place].marked
    } else {
        false
    }
}

fn has_marked_key(keys: &[SortKey], row: &Row) -> bool
    ensures { result ≡ spec.has_marked_key keys.now row.now }
{
    if !row.sure {
        return false;
    }
    for key in keys {
        if is_marked_at(*key, row) {
            return true;
        }
    }
    false
}

/// Whether a sure row is placed by a marked value, which makes the order of a sort uncertain.
pub fn any_marked_key(keys: &[SortKey], rows: &[Row]) -> bool
    ensures { result ≡ list_any (spec.has_marked_key keys.now) rows.now }
{
    for row in rows {
        if has_marked_key(keys, row) {
            return true;
        }
    }
    false
}

/// Whether rows are in order by the keys, so that `sort` leaves them as they are: none comes before the one above it.
pub fn is_sorted(keys: &[SortKey], rows: &[Row]) -> bool
    ensures { IsTrue result ↔ IsSortedBy (keys_lt value_at_key keys.now) rows.now }
{
    rows.is_sorted_by(|above, below| !compare_rows(keys, below, above).is_lt())
}

/// ORDER BY: the rows in order by the keys, NULL first ascending and last descending; ties keep their order.
///
/// - Shape: the place of a key is that of a column; a place without a column counts as one of NULLs.
/// - Marks: loose where it was, or where a sure row is placed by a marked value.
/// - Source: docs/SELECT.md.
pub fn sort(alloc: Global, rel: Rel, keys: &SortKeys) -> Result<Rel, EvalFault>
    ensures { Gives result (ordered rel keys.now) }
{
    let RelParts {
        columns,
        rows,
        is_open,
        is_loose,
    } = rel.into_parts();
    let is_loose = is_loose | any_marked_key(keys.as_slice(), rows.as_slice());
    let rows = sorted_rows(alloc, rows, keys.as_slice())?;
    Rel::new(alloc, columns, rows, is_open, is_loose)
}
