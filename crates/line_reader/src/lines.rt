//! A stream that is read line by line.
ghost use Rattle.std.specs.Prelude.{◌≡◌, ◌≤◌, ◌<◌, ◌+◌, ◌-◌, ◌++◌, ◌∷◌, [], List, ℕ, length, take, drop, min, IfOk, IfSome, IfNone, OnOk, OnErr, Ok, Some, None, IfErr, MatchResult, if◌then◌else◌, nat_lt, true, false};
ghost use Rattle.std.specs.declared.option.Option.{Option};
ghost use Rattle.std.specs.Io.KnownBytes.{Consumes, ReadConsumes, IsAtEnd};
ghost use Rattle.outside_io.specs.Causes.{HasCause};
ghost use Rattle.line_reader.specs.Cut.{kept_most, kept_with, limit};
ghost use Rattle.line_reader.specs.Reading.{at_start, Blames, CutsNext, GetsNext, KeepsOn, Refills};
ghost use Rattle.memchr.specs.Find.{IsFirstByte, is_byte};

use memchr::memchr;
use outside_io::{Failed, Source};
use std::alloc::Global;
use std::marker::Model;
use std::mem;
use value_types::{Bytes, NoMemory};

/// The bytes of a stream, at most (docs/FORMATS.md, "Limits").
const LIMIT: usize = 16_777_216;

/// The bytes that are kept of a line: one more than a line may have (docs/FORMATS.md, "Limits").
const KEPT: usize = 65_537;

/// The bytes of one read, at most.
const BUFFER: usize = 65_536;

/// What comes next in a stream.
#[derive(Debug, Drop)]
pub enum Next {
    /// A line without its line feed, of which the first 65,537 bytes are kept.
    Line(Bytes),
    /// The stream ended, and all of its lines were given.
    End,
    /// The source failed; the lines that a line feed ended before it were given.
    ReadFault,
    /// The source gave byte 16,777,217; the lines ended before it were given.
    StreamTooLong,
    /// Want of memory; the line in hand is lost.
    NoMemory,
}

/// A stream that is read line by line, up to a fault, the limit or want of memory.
#[derive(Drop)]
pub struct Lines {
    buffer: Vec<u8>,
    at: usize,
    filled: usize,
    total: usize,
    pending: Bytes,
    ended: bool,
}

impl Model for Lines {
    ghost use Rattle.std.specs.Prelude.{◌≤◌, ◌<◌, take, drop, length};
    ghost use Rattle.line_reader.specs.Reading.{State};

    ghost Value = { State };

    ghost view = { λ l. record {
      unread = drop l.at (take l.filled l.buffer.items);
      total = l.total;
      pending = l.pending;
      ended = l.ended;
    } };

    ghost invariant = { λ l.
        (l.at ≤ l.filled) × (l.filled ≤ length l.buffer.items) × (0 < length l.buffer.items) };
}

/// Reads some bytes into the front of the buffer, and at most so many.
fn read_piece<S: Source>(source: &mut S, buffer: &mut [u8], most: usize) -> Result<usize, Failed>
    requires room { 0 < length buffer.old }
    requires most { 0 < most }
    ensures bound { IfOk result (λ n. (n ≤ length buffer.new) × (n ≤ most)) }
    ensures bytes { ReadConsumes (S.left source.old) (S.left source.new) result buffer.new }
    ensures cause { HasCause (S.faults source.old) (S.faults source.new) result }
{
    let room = buffer.len().min(most);
    source.read(&mut buffer[..room])
}

/// Puts a piece to what is kept of a line.
fn push_kept(kept: &mut Bytes, alloc: Global, piece: &[u8]) -> Result<(), NoMemory>
    ensures { OnOk result (kept.new ≡ kept_with kept.old piece.now) }
{
    let room = KEPT.saturating_sub(kept.len());
    kept.push_slice(alloc, &piece[..piece.len().min(room)])
}

impl Lines {
    /// Before anything is read.
    pub fn new(alloc: Global) -> Result<Lines, NoMemory>
        ensures { IfOk result (λ l. l ≡ at_start) }
    {
        Ok(Lines {
            buffer: vec![in alloc; 0u8; BUFFER]?,
            at: 0,
            filled: 0,
            total: 0,
            pending: Bytes::new(alloc)?,
            ended: false,
        })
    }

    /// How many bytes aren't cut yet.
    fn uncut(&self) -> usize
        ensures { result ≡ length self.now.unread }
    {
        self.filled - self.at
    }

    /// Where the next line feed is in the bytes that aren't cut yet.
    fn next_feed(&self) -> Option<usize>
        ensures { IsFirstByte (is_byte 10) self.now.unread result }
    {
        memchr(b'\n', &self.buffer[self.at..self.filled])
    }

    /// Puts so many bytes to what is kept of the line in hand.
    fn keep(&mut self, alloc: Global, count: usize) -> Result<(), NoMemory>
        requires { count ≤ length self.old.unread }
        ensures { OnOk result (self.new ≡ record self.old {
          unread = drop count self.old.unread;
          pending = kept_with self.old.pending (take count self.old.unread);
        }) }
    {
        let end = self.at + count;
        push_kept(&mut self.pending, alloc, &self.buffer[self.at..end])?;
        self.at = end;
        Ok(())
    }

    /// Passes over the line feed.
    fn pass_feed(&mut self)
        requires { 0 < length self.old.unread }
        ensures { self.new ≡ record self.old { unread = drop 1 self.old.unread } }
    {
        self.at += 1;
    }

    /// Takes the next bytes of the source, where none is left uncut.
    fn refill<S: Source>(&mut self, source: &mut S) -> Result<usize, Failed>
        requires none { self.old.unread ≡ [] }
        requires total { self.old.total ≤ limit }
        ensures count { IfOk result (λ n. self.new.total ≡ self.old.total + n) }
        ensures most { self.new.total ≤ limit + 1 }
        ensures bytes { Refills result (S.left source.old) (S.left source.new) self.old self.new }
        ensures pending { self.new.pending ≡ self.old.pending }
        ensures going { self.new.ended ≡ self.old.ended }
        ensures cause { HasCause (S.faults source.old) (S.faults source.new) result }
    {
        let count = read_piece(source, self.buffer.as_mut_slice(), LIMIT + 1 - self.total)?;
        self.at = 0;
        self.filled = count.min(LIMIT - self.total);
        self.total += count;
        Ok(count)
    }

    /// Gives what is kept of the line in hand.
    fn end_line(&mut self, alloc: Global) -> Result<Bytes, NoMemory>
        ensures line { IfOk result (λ b. b ≡ self.old.pending) }
        ensures state { OnOk result (self.new ≡ record self.old { pending = [] }) }
    {
        Ok(mem::replace(&mut self.pending, Bytes::new(alloc)?))
    }

    /// The next line that ends in the bytes that were taken.
    fn cut(&mut self, alloc: Global) -> Result<Option<Bytes>, NoMemory>
        requires { self.old.ended ≡ false }
        ensures going { OnOk result (self.new.ended ≡ false) }
        ensures total { OnOk result (self.new.total ≡ self.old.total) }
        ensures line { IfOk result (λ o. CutsNext o self.old self.new) }
        ensures none { IfOk result (λ o. o ≡ None → self.new.unread ≡ []) }
    {
        match self.next_feed() {
            Some(count) => {
                self.keep(alloc, count)?;
                self.pass_feed();
                Ok(Some(self.end_line(alloc)?))
            }
            None => {
                self.keep(alloc, self.uncut())?;
                Ok(None)
            }
        }
    }

    /// Gives the last line, where a piece is left of it.
    fn finish(&mut self, alloc: Global) -> Next
        requires going { self.old.ended ≡ false }
        requires none { self.old.unread ≡ [] }
        requires total { self.old.total ≤ limit }
        ensures gets { (left : Option (List ℕ)) → IsAtEnd left
            → GetsNext result left left self.old self.new }
        ensures cause { (n : ℕ) → Blames result n n }
    {
        self.ended = true;
        if self.pending.len() == 0 {
            return Next::End;
        }
        match self.end_line(alloc) {
            Ok(line) => Next::Line(line),
            Err(_) => Next::NoMemory,
        }
    }

    /// The next line of the bytes that were taken, or else some bytes more.
    fn turn<S: Source>(&mut self, alloc: Global, source: &mut S) -> Result<(), Next>
        requires { self.old.ended ≡ false }
        ensures going { OnOk result (self.new.ended ≡ false) }
        ensures grows { OnOk result (self.old.total < self.new.total) }
        ensures total { OnOk result (self.new.total ≤ limit + 1) }
        ensures more { OnOk result
            (KeepsOn (S.left source.old) (S.left source.new) self.old self.new) }
        ensures gets { IfErr result (λ n.
            GetsNext n (S.left source.old) (S.left source.new) self.old self.new) }
        ensures kept { OnOk result (S.faults source.new ≡ S.faults source.old) }
        ensures cause { IfErr result (λ n. Blames n (S.faults source.old) (S.faults source.new)) }
    {
        match self.cut(alloc) {
            Ok(Some(line)) => return Err(Next::Line(line)),
            Ok(None) => {}
            Err(_) => return Err(Next::NoMemory),
        }
        if self.total > LIMIT {
            return Err(Next::StreamTooLong);
        }
        match self.refill(source) {
            Ok(0) => Err(self.finish(alloc)),
            Ok(_) => Ok(()),
            Err(_) => Err(Next::ReadFault),
        }
    }

    /// The next line, or why there is none.
    ///
    /// - Shape: the lines in order, without their line feeds; a last piece is a line unless empty.
    /// - Error: `ReadFault` where the source failed in this call, `StreamTooLong` at the limit.
    /// - Source: docs/FORMATS.md, "Lines of a stream".
    pub fn next<S: Source>(&mut self, alloc: Global, source: &mut S) -> Next
        ensures gets { GetsNext result (S.left source.old) (S.left source.new) self.old self.new }
        ensures cause { Blames result (S.faults source.old) (S.faults source.new) }
    {
        while !self.ended {
            if let Err(next) = self.turn(alloc, source) {
                return next;
            }
        }
        Next::End
    }
}
