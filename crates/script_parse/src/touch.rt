//! What a statement touches.

/// Which of the names that a statement touches are asked for.
#[derive(Clone, Copy)]
pub enum Touch {
    /// Those that it assigns.
    Variables,
    /// Those that it emits to.
    Builders,
    /// Those that it writes or drops.
    Datasets,
}
