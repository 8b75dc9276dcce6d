//! Where an edit goes: the refusals NoBranch, NoVersion, NoCell and BranchTaken.
ghost use Rattle.std.specs.Prelude.{◌≡◌, ◌≤◌, ◌<◌, ◌+◌, length, IfOk, Ok};
ghost use Rattle.version_tree.specs.Versions.{cells_at, count_at};
ghost use Rattle.version_tree.specs.Places.{base_of, at_end, placed, branched, place_of};
ghost use Rattle.version_tree.specs.Kept.{AllSmall, InPlace};

use crate::head::{Head, head_of};
use crate::version::{Version, cells_at};
use cell_model::EditRefusal;
use edit_wire::{Edit, EditKind};
use value_types::Name;

/// Between the first `front` cells of a version and those that come after its first `after`.
#[derive(Clone, Copy, Debug, PartialEq, Eq)]
pub struct Place {
    /// The number of the version, 0 for none.
    pub base: usize,
    pub front: usize,
    pub after: usize,
}

/// The number of a branch's last version, 0 where it has none.
fn base_of(versions: &[Version], branch: &Name) -> Result<usize, EditRefusal>
    requires { length versions.now ≤ 256 }
    ensures value { result ≡ base_of versions.now branch.now }
    ensures within { IfOk result (λ base. base ≤ length versions.now) }
{
    match head_of(versions, branch) {
        Head::NoBranch => Err(EditRefusal::NoBranch),
        Head::Empty => Ok(0),
        Head::Version(number) => Ok(number as usize),
    }
}

fn at_end(versions: &[Version], base: usize) -> Place
    requires { base ≤ length versions.now }
    ensures value { result ≡ at_end versions.now base }
    ensures within { InPlace versions.now result }
{
    let count = cells_at(versions, base).len();
    Place {
        base,
        front: count,
        after: count,
    }
}

/// A place at one of the cells, counted from 1, or just after the last. So many cells are taken out.
fn placed(
    versions: &[Version],
    base: usize,
    at: u32,
    beyond: usize,
    removed: usize,
) -> Result<Place, EditRefusal>
    requires base { base ≤ length versions.now }
    requires one { beyond + removed ≡ 1 }
    requires small { AllSmall versions.now }
    ensures value { result ≡ placed versions.now base at beyond removed }
    ensures within { IfOk result (λ place. InPlace versions.now place) }
{
    let at = at as usize;
    let most = cells_at(versions, base).len() + beyond;
    if 1 <= at && at <= most {
        Ok(Place {
            base,
            front: at - 1,
            after: at - 1 + removed,
        })
    } else {
        Err(EditRefusal::NoCell)
    }
}

/// A new branch from a version.
fn branched(versions: &[Version], branch: &Name, from: u32) -> Result<Place, EditRefusal>
    requires { length versions.now ≤ 256 }
    ensures value { result ≡ branched versions.now branch.now from }
    ensures within { IfOk result (λ place. InPlace versions.now place) }
{
    let from = from as usize;
    if 1 <= from && from <= versions.len() {
        match head_of(versions, branch) {
            Head::NoBranch => Ok(at_end(versions, from)),
            _ => Err(EditRefusal::BranchTaken),
        }
    } else {
        Err(EditRefusal::NoVersion)
    }
}

/// Where an edit goes, or why it goes nowhere.
pub fn place_of(versions: &[Version], edit: &Edit) -> Result<Place, EditRefusal>
    requires few { length versions.now ≤ 256 }
    requires small { AllSmall versions.now }
    ensures value { result ≡ place_of versions.now edit.now }
    ensures within { IfOk result (λ place. InPlace versions.now place) }
{
    let branch = &edit.branch;
    match &edit.kind {
        EditKind::Append { .. } => Ok(at_end(versions, base_of(versions, branch)?)),
        EditKind::Insert { at, .. } => placed(versions, base_of(versions, branch)?, *at, 1, 0),
        EditKind::Update { at, .. } => placed(versions, base_of(versions, branch)?, *at, 0, 1),
        EditKind::Delete { at } => placed(versions, base_of(versions, branch)?, *at, 0, 1),
        EditKind::Branch { from } => branched(versions, branch, *from),
    }
}
