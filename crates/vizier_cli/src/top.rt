//! The top call: all that the program does.
ghost use Rattle.std.specs.Prelude.{◌≡◌, ◌↔◌, List, ℕ, map, string_bytes, Some, None, true};
ghost use Rattle.std.specs.declared.option.Option.{Option};
ghost use Rattle.vizier_cli.specs.Words.{command_of, Serial};
ghost use Rattle.vizier_cli.specs.Top.{Reports, Causes, Completes};
ghost use Rattle.vizier_cli.specs.Statuses.{is_early};
ghost use Rattle.vizier_cli.specs.declared.status.Status.TheVariants as status;

use crate::command::serial_words;
use crate::opening::{ask, opened};
use crate::status::{Status, status_of};
use outside_io::{Shelf, Sink, Source};
use session_core::serial_session;
use std::alloc::Global;

/// Does what the words say, with the cells of a version run one after another.
///
/// - Shape: the words without the program's name.
/// - Source: docs/FORMATS.md, "Statuses and words" and "Report".
pub fn vizier_serial<S: Source, H: Shelf, K: Sink>(
    alloc: Global,
    words: &[String],
    source: &mut S,
    shelf: &mut H,
    sink: &mut K,
) -> Status
    // Words that are no command are refused, and the shelf isn't asked.
    ensures refused { (result ≡ status.BadWords) ↔ (command_of (map string_bytes words.now) ≡ None) }
    ensures unfetched { result ≡ status.BadWords → shelf.new ≡ shelf.old }
    // Where words or picks are refused, nothing is read or written.
    ensures untouched { is_early result ≡ true
        → (source.new ≡ source.old) × (sink.new ≡ sink.old) }
    // The written text is the report of the covered lines, or as much of it as the status says.
    ensures report { (file : Option (List ℕ))
        → command_of (map string_bytes words.now) ≡ Some (Serial file)
        → Reports result file (S.left source.old) (S.left source.new)
        (K.written sink.old) (K.written sink.new)
        (H.files shelf.old) (H.faults shelf.old) (H.faults shelf.new) }
    // Each fault has its cause.
    ensures cause { Causes result (S.faults source.old) (S.faults source.new)
        (K.faults sink.old) (K.faults sink.new) }
    // Without a fault, and within the limits, the report is whole, or memory was wanting.
    ensures complete { (file : Option (List ℕ))
        → command_of (map string_bytes words.now) ≡ Some (Serial file)
        → Completes result file (H.files shelf.old) (S.left source.old)
        (S.faults source.old) (S.faults source.new) (K.faults sink.old) (K.faults sink.new) }
{
    let Some(file) = serial_words(words) else {
        return Status::BadWords;
    };
    let Ok(told) = ask(alloc, file, shelf) else {
        return Status::NoMemory;
    };
    match opened(alloc, &told) {
        Ok(picks) => status_of(serial_session(alloc, picks, source, shelf, sink)),
        Err(status) => status,
    }
}
