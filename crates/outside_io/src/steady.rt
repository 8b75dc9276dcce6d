//! A source, a sink and a shelf over memory that never fail: the count of each is the constant 0.
ghost use Rattle.std.specs.Prelude.{◌≡◌, [], IfOk, Some};
ghost use Rattle.outside_io.specs.Memory.{joined};

use crate::pieces::PiecesLeft;
use crate::shelf::fetch_from;
use crate::{Failed, Fetched, Files, Pieces, Shelf, ShelfFault, Sink, Source, WriteFault};
use std::alloc::Global;
use std::marker::Model;
use value_types::{Bytes, NoMemory};

/// Gives the bytes of one piece a call, and never fails.
#[derive(Drop)]
pub struct SteadySource {
    bytes: PiecesLeft,
}

impl Model for SteadySource {
    ghost use Rattle.std.specs.Prelude.{List, ℕ};

    ghost Value = { List ℕ };

    ghost view = { λ s. s.bytes };
}

impl SteadySource {
    pub fn new(pieces: Pieces) -> SteadySource
        ensures { result ≡ joined pieces }
    {
        SteadySource {
            bytes: PiecesLeft::new(pieces),
        }
    }
}

impl Source for SteadySource {
    ghost left = { λ s. Some s };

    ghost faults = { λ _. 0 };

    fn read(&mut self, buffer: &mut [u8]) -> Result<usize, Failed> {
        Ok(self.bytes.read(buffer))
    }
}

/// Takes every byte, and never fails.
#[derive(Drop)]
pub struct SteadySink {
    taken: Bytes,
}

impl Model for SteadySink {
    ghost use Rattle.std.specs.Prelude.{List, ℕ};

    ghost Value = { List ℕ };

    ghost view = { λ s. s.taken };
}

impl SteadySink {
    pub fn new(alloc: Global) -> Result<SteadySink, NoMemory>
        ensures { IfOk result (λ s. s ≡ []) }
    {
        Ok(SteadySink {
            taken: Bytes::new(alloc)?,
        })
    }

    /// The bytes that were taken so far.
    pub fn written(&self) -> &[u8]
        ensures { result.now ≡ self.now }
    {
        self.taken.as_slice()
    }
}

impl Sink for SteadySink {
    ghost written = { λ s. Some s };

    ghost faults = { λ _. 0 };

    fn write(&mut self, alloc: Global, piece: &[u8]) -> Result<usize, WriteFault> {
        self.taken.push_slice(alloc, piece)?;
        Ok(piece.len())
    }
}

/// Holds the files that it was made of, and never fails.
#[derive(Drop)]
pub struct SteadyShelf {
    held: Files,
}

impl Model for SteadyShelf {
    ghost use Rattle.std.specs.Prelude.{List, ℕ};

    ghost Value = { List (List ℕ × List ℕ) };

    ghost view = { λ s. s.held };
}

impl SteadyShelf {
    pub fn new(files: Files) -> SteadyShelf
        ensures { result ≡ files }
    {
        SteadyShelf { held: files }
    }
}

impl Shelf for SteadyShelf {
    ghost files = { λ s. Some s };

    ghost faults = { λ _. 0 };

    fn fetch(&mut self, alloc: Global, name: &str, limit: u32) -> Result<Fetched, ShelfFault> {
        Ok(fetch_from(alloc, &self.held, name, limit)?)
    }
}
