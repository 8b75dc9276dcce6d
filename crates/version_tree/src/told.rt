//! What the shelf told of a file, and the asking for it.
ghost use Rattle.std.specs.Prelude.{◌≡◌, ◌≤◌, Some, IfOk};
ghost use Rattle.std.specs.Option.{option_copied};
ghost use Rattle.version_tree.specs.Limits.{cell_in};
ghost use Rattle.version_tree.specs.Notebook.{file_in};
ghost use Rattle.version_tree.specs.Calls.{Tells};

use edit_wire::{EditCell, EditKind};
use outside_io::{Fetched, Shelf, ShelfFault};
use std::alloc::Global;
use value_types::NoMemory;

/// The bytes of a file that is fetched, at most.
const FILE_LIMIT: u32 = 1_048_576;

/// What the shelf told of the file of an edit.
#[derive(Drop)]
pub enum Told {
    /// It wasn't asked.
    NotAsked,
    /// It failed, and its count of faults rose.
    Failed,
    /// It gave an answer.
    Got(Fetched),
}

/// The cell that an edit brings.
pub fn cell_in(kind: &EditKind) -> Option<&EditCell>
    ensures { option_copied result ≡ cell_in kind.now }
{
    match kind {
        EditKind::Append { cell } => Some(cell),
        EditKind::Insert { cell, .. } => Some(cell),
        EditKind::Update { cell, .. } => Some(cell),
        EditKind::Delete { .. } => None,
        EditKind::Branch { .. } => None,
    }
}

/// Asks the shelf for a file of at most 1,048,576 bytes.
pub fn fetch<H: Shelf>(alloc: Global, file: &str, shelf: &mut H) -> Result<Told, NoMemory>
    ensures files { H.files shelf.new ≡ H.files shelf.old }
    ensures later { H.faults shelf.old ≤ H.faults shelf.new }
    ensures told { IfOk result (λ t. Tells (H.files shelf.old) (H.faults shelf.old)
        (H.faults shelf.new) (Some file.now) t) }
{
    match shelf.fetch(alloc, file, FILE_LIMIT) {
        Ok(fetched) => Ok(Told::Got(fetched)),
        Err(ShelfFault::Failed) => Ok(Told::Failed),
        Err(ShelfFault::NoMemory) => Err(NoMemory),
    }
}

/// Asks the shelf for the file that the cell of an edit is made from, if it is made from one.
pub fn ask<H: Shelf>(alloc: Global, kind: &EditKind, shelf: &mut H) -> Result<Told, NoMemory>
    ensures files { H.files shelf.new ≡ H.files shelf.old }
    ensures later { H.faults shelf.old ≤ H.faults shelf.new }
    ensures told { IfOk result (λ t. Tells (H.files shelf.old) (H.faults shelf.old)
        (H.faults shelf.new) (file_in kind.now) t) }
{
    match cell_in(kind) {
        Some(EditCell::Load { file, .. }) => fetch(alloc, file.as_text(), shelf),
        Some(EditCell::Other(_)) => Ok(Told::NotAsked),
        None => Ok(Told::NotAsked),
    }
}
