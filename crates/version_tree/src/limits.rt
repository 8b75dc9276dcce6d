//! The limits of a notebook: the refusal TooMany.
ghost use Rattle.std.specs.Prelude.{◌≡◌, ◌≤◌, ◌++◌, ◌∷◌, [], length, map, IfOk, OnOk, if◌then◌else◌};
ghost use Rattle.version_tree.specs.Limits.{brings_cell, ids_of, shared, longest_shared, new_prefixes, new_ids, prefixes_of};
ghost use Rattle.version_tree.specs.Prefixes.{distinct_prefixes};
ghost use Rattle.version_tree.specs.Kept.{InPlace};

use crate::place::Place;
use crate::version::{Version, cells_at};
use cell_model::Cell;
use edit_wire::{Edit, EditKind};
use std::alloc::Global;
use value_types::{ArcOf, ListOf, NoMemory};

/// Versions of a notebook, at most.
pub const MOST_VERSIONS: usize = 256;
/// Cells of a version, at most.
pub const MOST_CELLS: usize = 48;
/// Distinct nonempty prefixes of the versions' lists of ids, at most.
pub const MOST_PREFIXES: usize = 768;

/// The ids of a version's cells, in order.
pub type Ids = ListOf<u32>;

/// Puts the ids of the cells at the end. After an error some of them may be there.
fn push_ids(alloc: Global, cells: &[ArcOf<Cell>], ids: &mut Ids) -> Result<(), NoMemory>
    ensures { OnOk result (ids.new ≡ ids.old ++ ids_of cells.now) }
{
    for cell in cells {
        ids.push(alloc, cell.get().id)?;
    }
    Ok(())
}

fn push_new(alloc: Global, brings: bool, id: u32, ids: &mut Ids) -> Result<(), NoMemory>
    ensures { OnOk result (ids.new ≡ ids.old ++ (if brings then id ∷ [] else [])) }
{
    if brings { ids.push(alloc, id) } else { Ok(()) }
}

fn brings_cell(kind: &EditKind) -> bool
    ensures { result ≡ brings_cell kind.now }
{
    !matches!(kind, EditKind::Delete { .. } | EditKind::Branch { .. })
}

/// The ids of the version that an edit makes. The new cell's id is the version's number.
#[tactic(auto, using(crate::proofs::Cells::ids_front, crate::proofs::Cells::ids_after))]
pub fn new_ids(
    alloc: Global,
    versions: &[Version],
    edit: &Edit,
    place: Place,
) -> Result<Ids, NoMemory>
    requires place { InPlace versions.now place }
    requires few { length versions.now ≤ 256 }
    ensures { IfOk result (λ ids. ids ≡ new_ids versions.now edit.now place) }
{
    let base = cells_at(versions, place.base);
    let mut ids = Ids::new(alloc)?;
    push_ids(alloc, &base[..place.front], &mut ids)?;
    push_new(
        alloc,
        brings_cell(&edit.kind),
        versions.len() as u32 + 1,
        &mut ids,
    )?;
    push_ids(alloc, &base[place.after..], &mut ids)?;
    Ok(ids)
}

/// How many first ids the cells share with a list.
fn shared(cells: &[ArcOf<Cell>], ids: &[u32]) -> usize
    ensures value { result ≡ shared (ids_of cells.now) ids.now }
    ensures within { result ≤ length ids.now }
{
    let Some((cell, cells)) = cells.split_first() else {
        return 0;
    };
    let Some((id, ids)) = ids.split_first() else {
        return 0;
    };
    if cell.get().id == *id {
        shared(cells, ids) + 1
    } else {
        0
    }
}

fn longest_shared(versions: &[Version], ids: &[u32]) -> usize
    ensures value { result ≡ longest_shared versions.now ids.now }
    ensures within { result ≤ length ids.now }
{
    let mut longest = 0;
    for version in versions {
        longest = longest.max(shared(version.cells.as_slice(), ids));
    }
    longest
}

/// How many prefixes a list has that none of the versions has.
pub fn new_prefixes(versions: &[Version], ids: &[u32]) -> usize
    ensures value { result ≡ new_prefixes versions.now ids.now }
    ensures within { result ≤ length ids.now }
{
    ids.len() - longest_shared(versions, ids)
}

/// The counted prefixes are the distinct ones.
pub fn law_of_prefixes(versions: &[Version])
    ensures { prefixes_of versions.now ≡ distinct_prefixes versions.now }
{}
