//! A source, a sink and a shelf over memory, which fail at the calls that they are told.
ghost use Rattle.std.specs.Prelude.{◌≡◌, ◌<◌, ◌↔◌, ◌-◌, min, [], List, ℕ, length, true, IsTrue, IsErr, IsErrOf, IfOk, IfSome, OnErr, Ok, Some};
ghost use Rattle.std.specs.Io.{ReadsAtMost, WritesAtMost};
ghost use Rattle.std.specs.Io.KnownBytes.{ReadConsumes, WriteAppends};
ghost use Rattle.outside_io.specs.Causes.{HasCause, HasFetchCause, HasWriteCause};
ghost use Rattle.outside_io.specs.Files.{answer_for};
ghost use Rattle.outside_io.specs.Memory.{fitting, is_listed, joined, one_more, read_fails, write_fails};
ghost use Rattle.outside_io.specs.declared.shelf.ShelfFault.TheVariants as shelf_fault;
ghost use Rattle.outside_io.specs.declared.sink.WriteFault.TheVariants as fault;

use crate::pieces::PiecesLeft;
use crate::shelf::fetch_from;
use crate::{Failed, Fetched, Files, Pieces, Shelf, ShelfFault, Sink, Source, WriteFault};
use std::alloc::Global;
use std::marker::Model;
use value_types::{Bytes, ListOf, NoMemory};

/// The numbers of the calls that are to fail, counted from 1.
pub type Numbers = ListOf<u64>;

/// Counts one call more, and tells whether it is to fail.
fn next_fails(calls: &mut u64, fails: &Numbers) -> bool
    ensures fails { result ≡ is_listed fails.now calls.old }
    ensures counted { calls.new ≡ one_more calls.old }
{
    *calls = calls.saturating_add(1);
    let number = *calls;
    fails.as_slice().contains(&number)
}

/// Gives the bytes of one piece a call, and fails at the calls that it is told.
#[derive(Drop)]
pub struct MemorySource {
    bytes: PiecesLeft,
    fails: Numbers,
    broken: bool,
    calls: u64,
    count: u64,
}

impl Model for MemorySource {
    ghost use Rattle.outside_io.specs.Memory.{SourceState};

    ghost Value = { SourceState };

    ghost view = { λ s. record {
      left = s.bytes;
      fails = s.fails;
      broken = s.broken;
      calls = s.calls;
      faults = s.count;
    } };
}

impl MemorySource {
    /// After the last piece it answers 0, or fails where it is broken.
    pub fn new(pieces: Pieces, fails: Numbers, broken: bool) -> MemorySource
        ensures { result ≡ record {
          left = joined pieces;
          fails = fails;
          broken = broken;
          calls = 0;
          faults = 0;
        } }
    {
        MemorySource {
            bytes: PiecesLeft::new(pieces),
            fails,
            broken,
            calls: 0,
            count: 0,
        }
    }
}

impl Source for MemorySource {
    ghost left = { λ s. Some s.left };

    ghost faults = { λ s. s.faults };

    fn read(&mut self, buffer: &mut [u8]) -> Result<usize, Failed>
        ensures bound { ReadsAtMost result buffer.new }
        ensures bytes { ReadConsumes (Some self.old.left) (Some self.new.left) result buffer.new }
        ensures cause { HasCause self.old.faults self.new.faults result }

        // It fails exactly where it is told to.
        ensures failed { IsErr result ↔ IsTrue (read_fails self.old) }
        ensures counted { self.new ≡ record self.old {
          left = self.new.left;
          calls = one_more self.old.calls;
          faults = self.new.faults;
        } }
    {
        let is_listed = next_fails(&mut self.calls, &self.fails);
        let is_end = self.bytes.is_at_end();
        if is_listed || (self.broken && is_end) {
            self.count = self.count.saturating_add(1);
            return Err(Failed);
        }
        Ok(self.bytes.read(buffer))
    }
}

/// Takes bytes until it has room for no more, and fails at the calls that it is told.
#[derive(Drop)]
pub struct MemorySink {
    taken: Bytes,
    room: u64,
    fails: Numbers,
    calls: u64,
    count: u64,
}

impl Model for MemorySink {
    ghost use Rattle.outside_io.specs.Memory.{SinkState};

    ghost Value = { SinkState };

    ghost view = { λ s. record {
      written = s.taken;
      room = s.room;
      fails = s.fails;
      calls = s.calls;
      faults = s.count;
    } };
}

impl MemorySink {
    /// With room for so many bytes; where none is left, a piece that isn't empty is a fault.
    pub fn new(alloc: Global, room: u64, fails: Numbers) -> Result<MemorySink, NoMemory>
        ensures { IfOk result (λ s.
            s ≡ record { written = []; room = room; fails = fails; calls = 0; faults = 0 }) }
    {
        Ok(MemorySink {
            taken: Bytes::new(alloc)?,
            room,
            fails,
            calls: 0,
            count: 0,
        })
    }

    /// The bytes that were taken so far.
    pub fn written(&self) -> &[u8]
        ensures { result.now ≡ self.now.written }
    {
        self.taken.as_slice()
    }
}

impl Sink for MemorySink {
    ghost written = { λ s. Some s.written };

    ghost faults = { λ s. s.faults };

    fn write(&mut self, alloc: Global, piece: &[u8]) -> Result<usize, WriteFault>
        ensures bound { WritesAtMost result piece.now }
        ensures some { IfOk result (λ n. 0 < length piece.now → 0 < n) }
        ensures bytes { WriteAppends (Some self.old.written) (Some self.new.written) result piece.now }
        ensures cause { HasWriteCause self.old.faults self.new.faults result }

        // It fails exactly where it is told to, and else takes what it has room for.
        ensures failed { IsErrOf result fault.Failed ↔ IsTrue (write_fails self.old piece.now) }
        ensures count { IfOk result (λ n. n ≡ fitting self.old piece.now) }
        ensures counted { self.new ≡ record self.old {
          written = self.new.written;
          calls = one_more self.old.calls;
          faults = self.new.faults;
        } }
    {
        let is_listed = next_fails(&mut self.calls, &self.fails);
        let count = room_for(self.room, self.taken.len(), piece.len());
        if is_listed || (count == 0 && !piece.is_empty()) {
            self.count = self.count.saturating_add(1);
            return Err(WriteFault::Failed);
        }
        self.taken.push_slice(alloc, &piece[..count])?;
        Ok(count)
    }
}

/// How many of the bytes there is room for.
fn room_for(room: u64, taken: usize, bytes: usize) -> usize
    ensures { result ≡ min bytes (room - taken) }
{
    let free = room.saturating_sub(taken as u64);
    (bytes as u64).min(free) as usize
}

/// Holds the files that it was made of, and fails at the calls that it is told.
#[derive(Drop)]
pub struct MemoryShelf {
    held: Files,
    fails: Numbers,
    calls: u64,
    count: u64,
}

impl Model for MemoryShelf {
    ghost use Rattle.outside_io.specs.Memory.{ShelfState};

    ghost Value = { ShelfState };

    ghost view = { λ s. record {
      files = s.held;
      fails = s.fails;
      calls = s.calls;
      faults = s.count;
    } };
}

impl MemoryShelf {
    pub fn new(files: Files, fails: Numbers) -> MemoryShelf
        ensures { result ≡ record { files = files; fails = fails; calls = 0; faults = 0 } }
    {
        MemoryShelf {
            held: files,
            fails,
            calls: 0,
            count: 0,
        }
    }
}

impl Shelf for MemoryShelf {
    ghost files = { λ s. Some s.files };

    ghost faults = { λ s. s.faults };

    fn fetch(&mut self, alloc: Global, name: &str, limit: u32) -> Result<Fetched, ShelfFault>
        ensures files { self.new.files ≡ self.old.files }
        ensures answer { IfOk result (λ f. f ≡ answer_for self.old.files name.now limit) }
        ensures cause { HasFetchCause self.old.faults self.new.faults result }

        // It fails exactly where it is told to.
        ensures failed { IsErrOf result shelf_fault.Failed ↔ IsTrue (is_listed self.old.fails self.old.calls) }
        ensures counted { self.new ≡ record self.old {
          calls = one_more self.old.calls;
          faults = self.new.faults;
        } }
    {
        if next_fails(&mut self.calls, &self.fails) {
            self.count = self.count.saturating_add(1);
            return Err(ShelfFault::Failed);
        }
        Ok(fetch_from(alloc, &self.held, name, limit)?)
    }
}
