//! Pieces of bytes, read one after another.
ghost use Rattle.std.specs.Prelude.{◌≡◌, ◌≤◌, ◌<◌, ◌+◌, ◌↔◌, ◌++◌, [], length, take, drop, get_or, IsTrue};
ghost use Rattle.outside_io.specs.Memory.{joined, left_from};

use std::marker::Model;
use value_types::{Bytes, ListOf};

/// The pieces of a stream, in order.
pub type Pieces = ListOf<Bytes>;

/// Pieces that are read, seen as the bytes left of them.
#[derive(Drop)]
pub(crate) struct PiecesLeft {
    pieces: Pieces,
    piece: usize,
    at: usize,
}

impl Model for PiecesLeft {
    ghost use Rattle.std.specs.Prelude.{◌≤◌, [], List, ℕ, length, get_or};
    ghost use Rattle.outside_io.specs.Memory.{left_from};

    ghost Value = { List ℕ };

    ghost view = { λ p. left_from p.pieces p.piece p.at };

    ghost invariant = { λ p. p.at ≤ length (get_or p.pieces p.piece []) };
}

impl PiecesLeft {
    pub(crate) fn new(pieces: Pieces) -> PiecesLeft
        ensures { result ≡ joined pieces }
    {
        PiecesLeft {
            pieces,
            piece: 0,
            at: 0,
        }
    }

    /// Whether no byte is left; passes over the pieces that are used up.
    pub(crate) fn is_at_end(&mut self) -> bool
        ensures end { IsTrue result ↔ (self.old ≡ []) }
        ensures same { self.new ≡ self.old }
    {
        let (piece, at) = next_place(self.pieces.as_slice(), self.piece, self.at);
        self.piece = piece;
        self.at = at;
        piece >= self.pieces.len()
    }

    /// Moves bytes of one piece into the buffer, and tells how many.
    pub(crate) fn read(&mut self, buffer: &mut [u8]) -> usize
        ensures bound { result ≤ length buffer.new }
        ensures moved { self.old ≡ take result buffer.new ++ self.new }
        ensures none { result ≡ 0 → 0 < length buffer.new → self.old ≡ [] }
    {
        let pieces = self.pieces.as_slice();
        let (piece, at) = next_place(pieces, self.piece, self.at);
        if piece >= pieces.len() {
            return 0;
        }
        let count = copy_from(pieces[piece].as_slice(), at, buffer);
        self.piece = piece;
        self.at = at + count;
        count
    }
}

/// The place of the next byte, past the pieces that are used up.
fn next_place(pieces: &[Bytes], from: usize, start: usize) -> (usize, usize)
    requires { start ≤ length (get_or pieces.now from []) }
    ensures same { left_from pieces.now result.0 result.1 ≡ left_from pieces.now from start }
    ensures inside { result.1 ≤ length (get_or pieces.now result.0 []) }
    ensures end { length pieces.now ≤ result.0 → result.1 ≡ 0 }
    ensures some { result.0 < length pieces.now → result.1 < length (get_or pieces.now result.0 []) }
{
    let mut piece = from;
    let mut at = start;
    while piece < pieces.len() {
        if at < pieces[piece].len() {
            return (piece, at);
        }
        piece += 1;
        at = 0;
    }
    (piece, at)
}

/// Moves what fits of the bytes from `at` on.
fn copy_from(bytes: &[u8], at: usize, buffer: &mut [u8]) -> usize
    requires { at ≤ length bytes.now }
    ensures count { result ≤ length buffer.new }
    ensures fits { at + result ≤ length bytes.now }
    ensures moved { drop at bytes.now ≡ take result buffer.new ++ drop (at + result) bytes.now }
    ensures none { result ≡ 0 → 0 < length buffer.new → at ≡ length bytes.now }
{
    let rest = &bytes[at..];
    let count = rest.len().min(buffer.len());
    buffer[..count].copy_from_slice(&rest[..count]);
    count
}
