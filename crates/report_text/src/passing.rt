//! Texts that go to a sink by way of words, which are written where enough of them are held.
ghost use Rattle.std.specs.Prelude.{◌≡◌};
ghost use Rattle.std.specs.List.{flat_map};
ghost use Rattle.outside_io.specs.Causes.{HasWriteCause};
ghost use Rattle.outside_io.specs.Texts.{AppendsFront};
ghost use Rattle.report_text.specs.Passing.{Passes, Sends};

use crate::pieces::Shown;
use outside_io::{Sink, WriteFault, write_all};
use std::alloc::Global;
use value_types::Words;

/// So many bytes are worth a write.
const ENOUGH: usize = 65_536;

/// Writes the words where there are enough of them.
fn send_enough<K: Sink>(alloc: Global, sink: &mut K, out: &mut Words) -> Result<(), WriteFault>
    ensures text { Sends (K.written sink.old) (K.written sink.new) result out.old out.new }
    ensures cause { HasWriteCause (K.faults sink.old) (K.faults sink.new) result }
{
    if out.len() < ENOUGH {
        return Ok(());
    }
    let fresh = Words::new(alloc)?;
    write_all(sink, alloc, out.as_bytes())?;
    *out = fresh;
    Ok(())
}

fn write_one<K: Sink, T: Shown>(
    alloc: Global,
    sink: &mut K,
    out: &mut Words,
    item: &T,
) -> Result<(), WriteFault>
    ensures text { Passes (K.written sink.old) (K.written sink.new) result out.old out.new
        (T.text item.now) }
    ensures cause { HasWriteCause (K.faults sink.old) (K.faults sink.new) result }
{
    item.push_to(alloc, out)?;
    send_enough(alloc, sink, out)
}

/// The texts of the items, one after another.
pub fn write_each<K: Sink, T: Shown>(
    alloc: Global,
    sink: &mut K,
    out: &mut Words,
    items: &[T],
) -> Result<(), WriteFault>
    ensures text { Passes (K.written sink.old) (K.written sink.new) result out.old out.new
        (flat_map T.text items.now) }
    ensures cause { HasWriteCause (K.faults sink.old) (K.faults sink.new) result }
{
    for item in items {
        write_one(alloc, sink, out, item)?;
    }
    Ok(())
}
