//! A shelf over the folder that the program runs in.
ghost use Rattle.std.specs.Prelude.{◌≡◌, None};

use crate::real::read_again;
use crate::{Fetched, Shelf, ShelfFault};
use std::alloc::Global;
use std::fs;
use std::io::{ErrorKind, Read};
use std::rt::Files;
use value_types::Bytes;

/// The files of the folder that the program runs in.
#[derive(Drop)]
pub struct FolderShelf<'r, R> {
    rt: &'r R,
    count: u64,
}

impl<'r, R: Files> FolderShelf<'r, R> {
    /// Before its first fetch.
    pub fn new(rt: &'r R) -> FolderShelf<'r, R>
        ensures { result.count ≡ 0 }
    {
        FolderShelf { rt, count: 0 }
    }
}

impl<'r, R: Files> Shelf for FolderShelf<'r, R> {
    ghost files = { λ _. None };

    ghost faults = { λ s. s.count };

    fn fetch(&mut self, alloc: Global, name: &str, limit: u32) -> Result<Fetched, ShelfFault> {
        let result = fetch_file(self.rt, alloc, name, limit);
        if let Err(ShelfFault::Failed) = result {
            self.count = self.count.saturating_add(1);
        }
        result
    }
}

/// Missing where no file is found, also where the name goes through a file as if it were a folder.
/// A folder and an unreadable file are faults.
fn fetch_file<R: Files>(
    rt: &R,
    alloc: Global,
    name: &str,
    limit: u32,
) -> Result<Fetched, ShelfFault> {
    match fs::open(rt, name) {
        Ok(mut file) => read_up_to(&mut file, alloc, limit),
        Err(fault) => match fault.kind() {
            ErrorKind::NotFound | ErrorKind::NotADirectory => Ok(Fetched::Missing),
            _ => Err(ShelfFault::Failed),
        },
    }
}

/// The bytes of the reader, if there are no more than the limit.
fn read_up_to<R: Read>(reader: &mut R, alloc: Global, limit: u32) -> Result<Fetched, ShelfFault> {
    let most = limit as usize;
    let mut bytes = Bytes::new(alloc)?;
    let mut buffer = [0u8; 16384];
    while bytes.len() <= most {
        match read_again(reader, &mut buffer) {
            Err(_) => return Err(ShelfFault::Failed),
            Ok(0) => return Ok(Fetched::Bytes(bytes)),
            Ok(count) => bytes.push_slice(alloc, &buffer[..count])?,
        }
    }
    Ok(Fetched::TooLong)
}
