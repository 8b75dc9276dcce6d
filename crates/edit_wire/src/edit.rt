//! Edits of a notebook, and why a line gives none.
ghost use Rattle.std.specs.Prelude.{◌≡◌};
ghost use Rattle.edit_wire.specs.declared.edit.EditFault.TheVariants.{NoMemory as Starves};

use cell_model::{CellKind, EditRefusal};
use dataset_types::{Repair, Types};
use thiserror::Error;
use value_types::{Name, NoMemory, Words};

/// The cell that an edit brings.
#[derive(Drop)]
pub enum EditCell {
    /// One that is made from a file of the shelf.
    Load {
        name: Name,
        file: Words,
        types: Types,
        repair: Repair,
    },
    /// One that needs no file.
    Other(CellKind),
}

/// What an edit does on its branch. Positions count from 1.
#[derive(Drop)]
pub enum EditKind {
    /// Puts the cell last.
    Append { cell: EditCell },
    /// Puts the cell before the one at a position, or last.
    Insert { at: u32, cell: EditCell },
    /// Puts the cell in the place of another.
    Update { at: u32, cell: EditCell },
    /// Takes a cell out.
    Delete { at: u32 },
    /// Makes the branch, with the cells of a version.
    Branch { from: u32 },
}

/// An edit and the branch that it names.
#[derive(Drop)]
pub struct Edit {
    pub branch: Name,
    pub kind: EditKind,
}

/// Why there is no edit, or none is accepted.
#[derive(Clone, Copy, Debug, PartialEq, Eq, Error)]
pub enum EditFault {
    /// The line or the edit is refused.
    #[error("the edit is refused: {0:?}")]
    Refused(EditRefusal),
    #[error("out of memory")]
    NoMemory,
}

impl From<NoMemory> for EditFault {
    ghost from_gives = { λ _ e. e ≡ Starves };

    fn from(_: NoMemory) -> EditFault {
        EditFault::NoMemory
    }
}
