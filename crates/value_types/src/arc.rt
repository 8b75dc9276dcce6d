//! A value that several owners share.
ghost use Rattle.std.specs.Prelude.{◌≡◌, IfOk};
ghost use Rattle.std.specs.Arc.{arc_value};

use crate::list::Copied;
use crate::memory::NoMemory;
use std::alloc::Global;
use std::marker::Model;
use std::sync::Arc;

/// An `Arc` that contracts see as its value.
#[derive(Drop)]
pub struct ArcOf<T> {
    arc: Arc<T>,
}

impl<T> Model for ArcOf<T> {
    ghost use Rattle.std.specs.Arc.{arc_value};

    ghost Value = { T };

    ghost view = { λ s. arc_value s.arc };
}

impl<T> ArcOf<T> {
    /// The value that is shared.
    pub fn get(&self) -> &T
        ensures { result.now ≡ self.now }
    {
        &*self.arc
    }
}

impl<T: Drop> ArcOf<T> {
    /// The value, to be shared.
    pub fn new(alloc: Global, value: T) -> Result<ArcOf<T>, NoMemory>
        ensures { IfOk result (λ s. s ≡ value) }
    {
        Ok(ArcOf {
            arc: Arc::new(alloc, value)?,
        })
    }

    /// One owner more of the same value; nothing of it is written again.
    pub fn copy(&self, _alloc: Global) -> Result<ArcOf<T>, NoMemory>
        ensures { IfOk result (λ s. s ≡ self.now) }
    {
        Ok(ArcOf {
            arc: Arc::try_clone(&self.arc)?,
        })
    }
}

impl<T: Drop> Copied for ArcOf<T> {
    fn copied(&self, alloc: Global) -> Result<ArcOf<T>, NoMemory> {
        self.copy(alloc)
    }
}
