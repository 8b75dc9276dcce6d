//! The columns that a sort goes by.
ghost use Rattle.std.specs.Prelude.{◌≡◌};

use std::alloc::Global;
use value_types::{Copied, ListOf, Name, NoMemory};

/// A column that rows are sorted by.
#[derive(Drop)]
pub struct SortName {
    pub name: Name,
    pub descending: bool,
}

/// The columns of a sort, the first of which counts most.
pub type SortNames = ListOf<SortName>;

impl SortName {
    /// The same column. It takes no memory.
    pub fn copy(&self) -> SortName
        ensures { result ≡ self.now }
    {
        SortName {
            name: self.name.copy(),
            descending: self.descending,
        }
    }
}

impl Copied for SortName {
    fn copied(&self, _alloc: Global) -> Result<SortName, NoMemory> {
        Ok(self.copy())
    }
}
