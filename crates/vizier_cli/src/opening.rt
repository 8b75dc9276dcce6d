//! The picks of a file that the words name.
ghost use Rattle.std.specs.Prelude.{◌≡◌, IfOk, option_map};
ghost use Rattle.version_tree.specs.Calls.{Tells};
ghost use Rattle.vizier_cli.specs.Opening.{found, opened, Opens};

use crate::status::Status;
use dataset_types::Picks;
use edit_wire::{PicksFault, picks_of};
use outside_io::{Fetched, Shelf};
use std::alloc::Global;
use value_types::NoMemory;
use version_tree::{Told, fetch};

/// Asks the shelf for the picks file, if the words name one.
pub fn ask<H: Shelf>(alloc: Global, file: Option<&str>, shelf: &mut H) -> Result<Told, NoMemory>
    ensures files { H.files shelf.new ≡ H.files shelf.old }
    ensures told { IfOk result (λ t. Tells (H.files shelf.old) (H.faults shelf.old)
        (H.faults shelf.new) (option_map (λ text. text.now) file.entry) t) }
{
    match file {
        Some(file) => fetch(alloc, file, shelf),
        None => Ok(Told::NotAsked),
    }
}

fn found(alloc: Global, fetched: &Fetched) -> Result<Picks, Status>
    ensures { Opens result (found fetched.now) }
{
    let Fetched::Bytes(bytes) = fetched else {
        return Err(Status::BadPicks { line: 0 });
    };
    match picks_of(alloc, bytes.as_slice()) {
        Ok(picks) => Ok(picks),
        Err(PicksFault::BadLine(line)) => Err(Status::BadPicks { line }),
        Err(PicksFault::NoMemory) => Err(Status::NoMemory),
    }
}

/// The picks of what the shelf told, or the status with which the program ends.
///
/// - Source: docs/FORMATS.md, "Statuses and words".
pub fn opened(alloc: Global, told: &Told) -> Result<Picks, Status>
    ensures { Opens result (opened told.now) }
{
    match told {
        Told::NotAsked => match Picks::new(alloc) {
            Ok(picks) => Ok(picks),
            Err(_) => Err(Status::NoMemory),
        },
        Told::Failed => Err(Status::PicksFault),
        Told::Got(fetched) => found(alloc, fetched),
    }
}
