//! The lines of a stream, one after another.
//!
//! `Lines` keeps one line in hand and the bytes of one read, and gives a line a call. What a caller
//! has to know of bytes is in the one clause `gets` of `Lines::next`: start at `Gets` in
//! specs/Reading.antt. Bytes that are all there are cut by `split_line`. What a line says is not here, but in the crates that parse it.
#![tactic(auto)]

mod lines;
#[cfg(test)]
mod tests;
mod text;

pub use lines::{Lines, Next};
pub use text::{is_blank, split_line};
