//! The outside as three traits: a source of bytes, a sink for bytes and a shelf of files.
//!
//! Each has a count of its faults that never falls, so a count that rose in a call shows that the
//! object failed in it. Start at `Source`, `Sink` and `Shelf`. The memory and steady objects are
//! for tests and worked runs; the program alone makes the real ones.
//! Cutting a stream into lines is not here, but in `line_reader`.
#![tactic(auto)]

mod folder;
mod memory;
mod pieces;
mod real;
mod shelf;
mod sink;
mod source;
mod steady;
#[cfg(test)]
mod tests;

pub use folder::FolderShelf;
pub use memory::{MemoryShelf, MemorySink, MemorySource, Numbers};
pub use pieces::Pieces;
pub use real::{StdinSource, StdoutSink};
pub use shelf::{Fetched, Files, Shelf, ShelfFault};
pub use sink::{Sink, WriteFault, write_all};
pub use source::{Failed, Source};
pub use steady::{SteadyShelf, SteadySink, SteadySource};
