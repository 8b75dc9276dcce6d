//! How a session ended.

/// How a session ended.
#[derive(Clone, Copy, Debug, PartialEq, Eq)]
pub enum SessionStatus {
    /// The stream was read to its end, and the whole report was written.
    Done,
    /// The source failed.
    ReadFault,
    /// A write failed.
    WriteFault,
    /// No memory was found.
    NoMemory,
    /// The source gave a byte past the limit of a stream.
    StreamTooLong,
}
