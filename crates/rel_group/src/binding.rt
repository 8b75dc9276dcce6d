//! The rows of a group under their columns.
ghost use Rattle.std.specs.Prelude.{◌≡◌, IfOk, slice_get};
ghost use Rattle.std.specs.Option.{option_copied};
ghost use Rattle.relations.specs.Bound.{bindings};
ghost use Rattle.rel_group.specs.Groups.{bound_rows};
ghost use Rattle.rel_group.specs.Calls.{bound_in, rows_by};

use crate::job::Job;
use crate::parts::Lot;
use dataset_types::Row;
use expr_meaning::{Bindings, ScopeColumn};
use relations::bind_more;
use std::alloc::Global;
use value_types::{ListOf, NoMemory};

/// A row under its columns, in a list without room for more.
fn bound(alloc: Global, columns: &[ScopeColumn], row: &Row) -> Result<Bindings, NoMemory>
    ensures { IfOk result (λ b. b ≡ bindings columns.now row.now.values) }
{
    let mut all = Bindings::from_vec(alloc, Vec::with_capacity(alloc, columns.len())?)?;
    bind_more(alloc, &mut all, columns, row.values.as_slice())?;
    Ok(all)
}

/// The row at a place, counted from 0.
pub fn row_at(rows: &[Row], place: usize) -> Option<&Row>
    ensures { option_copied result ≡ slice_get rows.now place }
{
    rows.get(place)
}

#[tactic(auto, using(crate::proofs::Lots::binding))]
fn bound_at(
    alloc: Global,
    columns: &[ScopeColumn],
    rows: &[Row],
    places: &[usize],
) -> Result<ListOf<Bindings>, NoMemory>
    ensures { IfOk result (λ all. all ≡ bound_rows columns.now (rows_by rows.now places.now)) }
{
    let mut all = ListOf::new(alloc)?;
    for place in places {
        if let Some(row) = row_at(rows, *place) {
            all.push(alloc, bound(alloc, columns, row)?)?;
        }
    }
    Ok(all)
}

/// The rows of a lot under all columns.
pub fn bound_lot(alloc: Global, job: &Job, lot: &Lot) -> Result<ListOf<Bindings>, NoMemory>
    ensures { IfOk result (λ all. all ≡ (bound_in job.now lot.now).rows) }
{
    let columns = job.rel.columns().as_slice();
    let rows = job.rel.rows().as_slice();
    bound_at(alloc, columns, rows, lot.rows.as_slice())
}
