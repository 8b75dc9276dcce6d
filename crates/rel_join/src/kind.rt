//! Kinds of joins.

/// JOIN, or LEFT JOIN.
#[derive(Clone, Copy)]
pub enum Kind {
    Inner,
    /// Left rows that have no pair stay.
    Outer,
}
