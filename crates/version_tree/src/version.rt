//! Versions, and their cells by number.
ghost use Rattle.std.specs.Prelude.{◌≡◌, ◌++◌, ◌≤◌, ◌-◌, length, OnOk};
ghost use Rattle.std.specs.Option.{option_copied};
ghost use Rattle.version_tree.specs.Versions.{version_of, cells_at};

use cell_model::{Cell, Cells};
use std::alloc::Global;
use value_types::{ArcOf, Name, NoMemory};

/// A version: its branch, and its cells in order.
#[derive(Drop)]
pub struct Version {
    pub branch: Name,
    pub cells: Cells,
}

/// The version with a number. Numbers count from 1.
pub fn version_of(versions: &[Version], number: usize) -> Option<&Version>
    ensures { option_copied result ≡ version_of versions.now number }
{
    if number == 0 {
        return None;
    }
    versions.get(number - 1)
}

/// The cells of a version, none for a number that no version has.
pub fn cells_at(versions: &[Version], number: usize) -> &[ArcOf<Cell>]
    ensures { result.now ≡ cells_at versions.now number }
{
    match version_of(versions, number) {
        Some(version) => version.cells.as_slice(),
        None => &[],
    }
}

/// Shares the cells with a list, at its end. After an error some of them may be there.
pub fn share(alloc: Global, cells: &[ArcOf<Cell>], list: &mut Cells) -> Result<(), NoMemory>
    ensures { OnOk result (list.new ≡ list.old ++ cells.now) }
{
    for cell in cells {
        list.push(alloc, cell.copy(alloc)?)?;
    }
    Ok(())
}
