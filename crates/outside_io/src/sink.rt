//! A sink for bytes, and a text written whole.
ghost use Rattle.std.specs.Prelude.{◌≡◌, ◌<◌, List, ℕ, length, IfOk};
ghost use Rattle.std.specs.declared.option.Option.{Option};
ghost use Rattle.std.specs.Io.{WritesAtMost};
ghost use Rattle.std.specs.Io.KnownBytes.{WriteAppends};
ghost use Rattle.outside_io.specs.Causes.{HasWriteCause};
ghost use Rattle.outside_io.specs.Texts.{WritesText};
ghost use Rattle.outside_io.specs.declared.sink.WriteFault.TheVariants as fault;

use std::alloc::Global;
use value_types::NoMemory;

/// What is wrong with a write.
#[derive(Clone, Copy, Debug, PartialEq, Eq)]
pub enum WriteFault {
    /// The sink failed; its count of faults rose.
    Failed,
    /// Want of memory; the count stays.
    NoMemory,
}

impl From<NoMemory> for WriteFault {
    ghost from_gives = { λ _ e. e ≡ fault.NoMemory };

    fn from(_: NoMemory) -> WriteFault {
        WriteFault::NoMemory
    }
}

/// Where the bytes of a text go.
pub trait Sink {
    /// The bytes that were taken, where they are known.
    ghost written: { Self → Option (List ℕ) };

    /// How often the sink has failed.
    ghost faults: { Self → ℕ };

    /// Takes the first bytes of the piece, and tells how many.
    ///
    /// - Shape: at most the piece's length, and 0 for the empty piece alone.
    /// - Error: `Failed` where the sink fails; on any error nothing is taken.
    fn write(&mut self, alloc: Global, piece: &[u8]) -> Result<usize, WriteFault>
        ensures bound { WritesAtMost result piece.now }
        ensures some { IfOk result (λ n. 0 < length piece.now → 0 < n) }
        ensures bytes { WriteAppends (written self.old) (written self.new) result piece.now }
        ensures cause { HasWriteCause (faults self.old) (faults self.new) result };
}

/// Writes all of the text, in as many calls as it takes.
///
/// - Error: the first fault of the sink; then some first bytes of the text were taken.
pub fn write_all<K: Sink>(sink: &mut K, alloc: Global, text: &[u8]) -> Result<(), WriteFault>
    ensures text { WritesText (K.written sink.old) (K.written sink.new) result text.now }
    ensures cause { HasWriteCause (K.faults sink.old) (K.faults sink.new) result }
{
    let mut rest = text;
    while !rest.is_empty() {
        let count = sink.write(alloc, rest)?;
        rest = &rest[count..];
    }
    Ok(())
}
