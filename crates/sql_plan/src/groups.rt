//! What the names of a grouped core stand for.
ghost use Rattle.std.specs.Prelude.{◌≡◌, ◌++◌, IfOk, OnOk};
ghost use Rattle.cell_errors.specs.Answers.{Gives};
ghost use Rattle.sql_plan.specs.Groups as spec;

use crate::place::named_place;
use cell_errors::EvalFault;
use expr_meaning::{Scope, ScopeColumn};
use relations::{ColumnPlaces, ColumnRefs};
use sql_parse::ColumnName;
use std::alloc::Global;
use value_types::NoMemory;

fn key_place(places: &ColumnPlaces, key: &ColumnName) -> Result<u32, EvalFault>
    ensures { Gives result (spec.key_place places.now key.now) }
{
    named_place(places, &key.qualifier, &key.name)
}

#[tactic(auto, using(relations::proofs::Collecting::collecting))]
fn keys_among(
    alloc: Global,
    places: &ColumnPlaces,
    keys: &[ColumnName],
) -> Result<ColumnRefs, EvalFault>
    ensures { Gives result (spec.key_places places.now keys.now) }
{
    let mut all = ColumnRefs::new(alloc)?;
    for key in keys {
        let place = key_place(places, key)?;
        all.push(alloc, place)?;
    }
    Ok(all)
}

/// The places of the key columns, counted from 1.
///
/// - Error: `NoColumn` for the first that isn't there.
pub(crate) fn key_places(
    alloc: Global,
    columns: &[ScopeColumn],
    keys: &[ColumnName],
) -> Result<ColumnRefs, EvalFault>
    ensures { Gives result (spec.key_places columns.now keys.now) }
{
    let places = ColumnPlaces::new(alloc, columns)?;
    keys_among(alloc, &places, keys)
}

fn is_key(keys: &[u32], place: usize) -> bool
    ensures { result ≡ spec.is_key keys.now place }
{
    keys.iter().any(|key| *key as usize == place)
}

/// The column put after those before it, once where it is a key and else twice.
fn push_once_or_twice(
    alloc: Global,
    all: &mut Scope,
    is_key: bool,
    column: &ScopeColumn,
) -> Result<(), NoMemory>
    ensures { OnOk result (all.new ≡ all.old ++ spec.once_or_twice is_key column.now) }
{
    if !is_key {
        all.push(alloc, column.copy(alloc)?)?;
    }
    all.push(alloc, column.copy(alloc)?)?;
    Ok(())
}

/// The columns, each that is no key twice, so that no name stands for it.
pub(crate) fn key_columns(
    alloc: Global,
    columns: &[ScopeColumn],
    keys: &[u32],
) -> Result<Scope, NoMemory>
    ensures { IfOk result (λ cs. cs ≡ spec.key_columns columns.now keys.now) }
{
    let mut all = Scope::new(alloc)?;
    for (place, column) in columns.iter().enumerate() {
        push_once_or_twice(alloc, &mut all, is_key(keys, place + 1), column)?;
    }
    Ok(all)
}
