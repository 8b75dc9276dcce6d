//! A source over any reader and a sink over any writer, for standard input and standard output.
ghost use Rattle.std.specs.Prelude.{◌≡◌, ◌<◌, length, IfOk};
ghost use Rattle.std.specs.Io.{ReadsAtMost, WritesAtMost};
ghost use Rattle.std.specs.Io.KnownBytes.{ReadConsumes, WriteAppends};

use crate::{Failed, Sink, Source, WriteFault};
use std::alloc::Global;
use std::io::{ErrorKind, Read, Write};

/// How often a call is made that a signal interrupts.
const TRIES: u32 = 100;

/// A source over a reader, as the program's standard input.
#[derive(Drop)]
pub struct StdinSource<R> {
    reader: R,
    count: u64,
}

impl<R: Read> StdinSource<R> {
    /// Before its first read.
    pub fn new(reader: R) -> StdinSource<R>
        ensures { result ≡ record { reader = reader; count = 0 } }
    {
        StdinSource { reader, count: 0 }
    }
}

impl<R: Read> Source for StdinSource<R> {
    ghost left = { λ s. R.remaining s.reader };

    ghost faults = { λ s. s.count };

    fn read(&mut self, buffer: &mut [u8]) -> Result<usize, Failed> {
        let result = read_again(&mut self.reader, buffer);
        if result.is_err() {
            self.count = self.count.saturating_add(1);
        }
        result
    }
}

/// Reads, and again where a signal interrupts the call.
#[tactic(auto, using(crate::proofs::Kept::consumes_after))]
pub(crate) fn read_again<R: Read>(reader: &mut R, buffer: &mut [u8]) -> Result<usize, Failed>
    ensures bound { ReadsAtMost result buffer.new }
    ensures bytes { ReadConsumes (R.remaining reader.old) (R.remaining reader.new) result buffer.new }
{
    for _ in 0..TRIES {
        match reader.read(buffer) {
            Ok(count) => return Ok(count),
            Err(fault) if fault.kind() == ErrorKind::Interrupted => {}
            Err(_) => return Err(Failed),
        }
    }
    Err(Failed)
}

/// A sink over a writer, as the program's standard output. Nothing is held back.
#[derive(Drop)]
pub struct StdoutSink<W> {
    writer: W,
    count: u64,
}

impl<W: Write> StdoutSink<W> {
    /// Before its first write.
    pub fn new(writer: W) -> StdoutSink<W>
        ensures { result ≡ record { writer = writer; count = 0 } }
    {
        StdoutSink { writer, count: 0 }
    }
}

impl<W: Write> Sink for StdoutSink<W> {
    ghost written = { λ s. W.contents s.writer };

    ghost faults = { λ s. s.count };

    fn write(&mut self, _alloc: Global, piece: &[u8]) -> Result<usize, WriteFault> {
        match write_again(&mut self.writer, piece) {
            Ok(count) => Ok(count),
            Err(Failed) => {
                self.count = self.count.saturating_add(1);
                Err(WriteFault::Failed)
            }
        }
    }
}

/// Writes, and again where a signal interrupts the call. A writer that takes nothing has failed.
#[tactic(auto, using(crate::proofs::Kept::appends_after))]
fn write_again<W: Write>(writer: &mut W, piece: &[u8]) -> Result<usize, Failed>
    ensures bound { WritesAtMost result piece.now }
    ensures some { IfOk result (λ n. 0 < length piece.now → 0 < n) }
    ensures bytes { WriteAppends (W.contents writer.old) (W.contents writer.new) result piece.now }
{
    for _ in 0..TRIES {
        match writer.write(piece) {
            Ok(count) if count > 0 || piece.is_empty() => return Ok(count),
            Err(fault) if fault.kind() == ErrorKind::Interrupted => {}
            _ => return Err(Failed),
        }
    }
    Err(Failed)
}
