//! The serial session.
ghost use Rattle.std.specs.Prelude.{◌≡◌, ◌≤◌, ◌+◌, ◌++◌, ◌∷◌, [], List, ℕ, length, OnOk, IfErr, MatchResult};
ghost use Rattle.std.specs.declared.option.Option.{Option};
ghost use Rattle.outside_io.specs.Causes.{Rose};
ghost use Rattle.version_tree.specs.declared.told.Told.{Told};
ghost use Rattle.dataset_types.specs.declared.picks.Pick.{Pick};
ghost use Rattle.report_words.specs.Reports.{WasTold};
ghost use Rattle.report_words.specs.Says.{Says, Blames, Completes};
ghost use Rattle.session_core.specs.Turns.{Stood};

use crate::book::Book;
use crate::earned::write_earned;
use dataset_types::Picks;
use line_reader::{Lines, Next};
use outside_io::{Shelf, Sink, Source};
use report_words::SessionStatus;
use std::alloc::Global;

// Takes what comes next in the stream, and writes what it earns.
fn turn<S: Source, H: Shelf, K: Sink>(
    alloc: Global,
    lines: &mut Lines,
    book: &mut Book,
    number: u32,
    source: &mut S,
    shelf: &mut H,
    sink: &mut K,
) -> Result<(), SessionStatus>
    ensures files { H.files shelf.new ≡ H.files shelf.old }
    ensures stood { (picks : List Pick) (first start : Option (List ℕ)) (count : ℕ)
        (hs : List (List ℕ × Told))
        → Stood picks first (S.left source.old) start (K.written sink.old)
        (H.files shelf.old) count (H.faults shelf.old) lines.old book.old number hs
        → MatchResult result
        (λ _. (h : List ℕ × Told)
        × Stood picks first (S.left source.new) start (K.written sink.new)
        (H.files shelf.old) count (H.faults shelf.new) lines.new book.new (number + 1)
        (hs ++ h ∷ []))
        (λ status. (all : List (List ℕ × Told))
        × Says status picks first (S.left source.new) start (K.written sink.new) all
        × WasTold (H.files shelf.old) count (H.faults shelf.new) picks all) }
    ensures kept { OnOk result
        ((S.faults source.new ≡ S.faults source.old) × (K.faults sink.new ≡ K.faults sink.old)) }
    ensures cause { IfErr result (λ status.
        Blames status (S.faults source.old) (S.faults source.new)
        (K.faults sink.old) (K.faults sink.new)) }
{
    match lines.next(alloc, source) {
        Next::Line(kept) => match book.take_line(alloc, number, kept.as_slice(), shelf) {
            Ok(earned) => write_earned(alloc, sink, number, &earned),
            Err(_) => Err(SessionStatus::NoMemory),
        },
        Next::End => Err(SessionStatus::Done),
        Next::ReadFault => Err(SessionStatus::ReadFault),
        Next::StreamTooLong => Err(SessionStatus::StreamTooLong),
        Next::NoMemory => Err(SessionStatus::NoMemory),
    }
}

// The session, whose completeness follows from its report and its causes.
fn all_lines<S: Source, H: Shelf, K: Sink>(
    alloc: Global,
    picks: Picks,
    source: &mut S,
    shelf: &mut H,
    sink: &mut K,
) -> SessionStatus
    ensures report { (hs : List (List ℕ × Told))
        × Says result picks (S.left source.old) (S.left source.new)
        (K.written sink.old) (K.written sink.new) hs
        × WasTold (H.files shelf.old) (H.faults shelf.old) (H.faults shelf.new) picks hs }
    ensures cause { Blames result (S.faults source.old) (S.faults source.new)
        (K.faults sink.old) (K.faults sink.new) }
{
    let Ok(mut lines) = Lines::new(alloc) else {
        return SessionStatus::NoMemory;
    };
    let Ok(mut book) = Book::new(alloc, picks) else {
        return SessionStatus::NoMemory;
    };
    for number in 1..u32::MAX {
        if let Err(status) = turn(alloc, &mut lines, &mut book, number, source, shelf, sink) {
            return status;
        }
    }
    // No stream within the limit has so many lines.
    SessionStatus::NoMemory
}

/// Reads a stream of edit lines to its end, and writes the report of each line when it is taken.
///
/// - Shape: the picks are held by every cell of the notebook.
/// - Error: by the status; docs/FORMATS.md, "Statuses and words".
pub fn serial_session<S: Source, H: Shelf, K: Sink>(
    alloc: Global,
    picks: Picks,
    source: &mut S,
    shelf: &mut H,
    sink: &mut K,
) -> SessionStatus
    // What was taken and written, over the lines that are covered and what the shelf told of them.
    ensures report { (hs : List (List ℕ × Told))
        × Says result picks (S.left source.old) (S.left source.new)
        (K.written sink.old) (K.written sink.new) hs
        × WasTold (H.files shelf.old) (H.faults shelf.old) (H.faults shelf.new) picks hs }
    // Whose fault it was.
    ensures cause { Blames result (S.faults source.old) (S.faults source.new)
        (K.faults sink.old) (K.faults sink.new) }
    // Without a fault, and within the limit, it is done, or memory was wanting.
    ensures complete { Completes result (S.left source.old) (S.faults source.old)
        (S.faults source.new) (K.faults sink.old) (K.faults sink.new) }
{
    all_lines(alloc, picks, source, shelf, sink)
}
