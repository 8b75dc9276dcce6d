//! Cells: what a version is made of.
ghost use Rattle.std.specs.Prelude.{◌≡◌, IfOk};

use dataset_types::{Picks, Repair, Table, Types};
use sheet_commands::Command;
use std::alloc::Global;
use value_types::{ArcOf, Bytes, ListOf, Name, NoMemory, Words};

/// A cell of a notebook. One cell may stand in many versions.
#[derive(Drop)]
pub struct Cell {
    /// The number of the version that brought it in.
    pub id: u32,
    pub kind: CellKind,
    pub picks: ArcOf<Picks>,
}

/// What a cell does.
#[derive(Drop)]
pub enum CellKind {
    /// Holds a literal dataset and writes it under its name.
    Make {
        name: Name,
        table: ArcOf<Table>,
    },
    /// Reads a CSV file's bytes as a dataset and writes it under its name.
    Load {
        name: Name,
        bytes: ArcOf<Bytes>,
        types: Types,
        repair: Repair,
    },
    /// Does a spreadsheet command.
    Vizual(Command),
    /// Writes what a SELECT gives under a name.
    Sql {
        text: Words,
        into: Name,
    },
}

/// The cells of a version, in order. They are shared.
pub type Cells = ListOf<ArcOf<Cell>>;

impl CellKind {
    /// An equal kind, which shares the table or the bytes.
    pub fn copy(&self, alloc: Global) -> Result<CellKind, NoMemory>
        ensures { IfOk result (λ k. k ≡ self.now) }
    {
        match self {
            CellKind::Make { name, table } => Ok(CellKind::Make {
                name: name.copy(),
                table: table.copy(alloc)?,
            }),
            CellKind::Load {
                name,
                bytes,
                types,
                repair,
            } => Ok(CellKind::Load {
                name: name.copy(),
                bytes: bytes.copy(alloc)?,
                types: types.copy(alloc)?,
                repair: *repair,
            }),
            CellKind::Vizual(command) => Ok(CellKind::Vizual(command.copy(alloc)?)),
            CellKind::Sql { text, into } => Ok(CellKind::Sql {
                text: text.copy(alloc)?,
                into: into.copy(),
            }),
        }
    }
}

impl Cell {
    /// An equal cell.
    pub fn copy(&self, alloc: Global) -> Result<Cell, NoMemory>
        ensures { IfOk result (λ c. c ≡ self.now) }
    {
        Ok(Cell {
            id: self.id,
            kind: self.kind.copy(alloc)?,
            picks: self.picks.copy(alloc)?,
        })
    }
}
