//! The cells of a new version.
ghost use Rattle.std.specs.Prelude.{◌≡◌, ◌∷◌, [], IfOk};
ghost use Rattle.edit_wire.specs.Answers.{Gives};
ghost use Rattle.version_tree.specs.Versions.{cells_at};
ghost use Rattle.version_tree.specs.Places.{between};
ghost use Rattle.version_tree.specs.Notebook.{load_told, made_by, new_cells};
ghost use Rattle.version_tree.specs.Kept.{InPlace};

use crate::place::Place;
use crate::told::{Told, cell_in};
use crate::version::{Version, cells_at, share};
use cell_model::{Cell, CellKind, Cells, EditRefusal};
use dataset_types::{Picks, Repair, Types};
use edit_wire::{EditCell, EditFault, EditKind};
use outside_io::Fetched;
use std::alloc::Global;
use value_types::{ArcOf, Name, NoMemory};

/// The load of what the shelf told.
fn load_told(
    alloc: Global,
    name: &Name,
    types: &Types,
    repair: Repair,
    told: Told,
) -> Result<CellKind, EditFault>
    ensures { Gives result (load_told name.now types.now repair told) }
{
    let bytes = match told {
        Told::Got(Fetched::Bytes(bytes)) => bytes,
        Told::Got(Fetched::Missing) => return Err(EditFault::Refused(EditRefusal::NoFile)),
        Told::Got(Fetched::TooLong) => return Err(EditFault::Refused(EditRefusal::FileTooLong)),
        Told::Failed | Told::NotAsked => return Err(EditFault::Refused(EditRefusal::FileFault)),
    };
    Ok(CellKind::Load {
        name: name.copy(),
        bytes: ArcOf::new(alloc, bytes)?,
        types: types.copy(alloc)?,
        repair,
    })
}

/// What the new cell does.
fn made_by(alloc: Global, cell: &EditCell, told: Told) -> Result<CellKind, EditFault>
    ensures { Gives result (made_by cell.now told) }
{
    match cell {
        EditCell::Load {
            name,
            types,
            repair,
            ..
        } => load_told(alloc, name, types, *repair, told),
        EditCell::Other(kind) => Ok(kind.copy(alloc)?),
    }
}

/// The new cell, if the edit brings one.
pub fn new_cells(
    alloc: Global,
    id: u32,
    picks: &ArcOf<Picks>,
    kind: &EditKind,
    told: Told,
) -> Result<Cells, EditFault>
    ensures { Gives result (new_cells id picks.now kind.now told) }
{
    let mut cells = Cells::new(alloc)?;
    let Some(cell) = cell_in(kind) else {
        return Ok(cells);
    };
    let kind = made_by(alloc, cell, told)?;
    let picks = picks.copy(alloc)?;
    cells.push(alloc, ArcOf::new(alloc, Cell { id, kind, picks })?)?;
    Ok(cells)
}

/// The cells of a version that is made at a place of an earlier one, whose cells it shares.
pub fn cells_between(
    alloc: Global,
    versions: &[Version],
    place: Place,
    new: &Cells,
) -> Result<Cells, NoMemory>
    requires { InPlace versions.now place }
    ensures { IfOk result
        (λ cells. cells ≡ between place new.now (cells_at versions.now place.base)) }
{
    let base = cells_at(versions, place.base);
    let mut cells = Cells::new(alloc)?;
    share(alloc, &base[..place.front], &mut cells)?;
    share(alloc, new.as_slice(), &mut cells)?;
    share(alloc, &base[place.after..], &mut cells)?;
    Ok(cells)
}
