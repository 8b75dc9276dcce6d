//! Columns: their names and types.
ghost use Rattle.std.specs.Prelude.{◌≡◌, IfOk};

use std::alloc::Global;
use value_types::{ColumnType, Copied, ListOf, Name, NoMemory};

/// A column of a dataset.
#[derive(Drop)]
pub struct Column {
    pub name: Name,
    pub kind: ColumnType,
}

/// The columns of a dataset, in order.
pub type Columns = ListOf<Column>;

impl Column {
    /// An equal column.
    pub fn copy(&self, _alloc: Global) -> Result<Column, NoMemory>
        ensures { IfOk result (λ c. c ≡ self.now) }
    {
        Ok(Column {
            name: self.name.copy(),
            kind: self.kind,
        })
    }
}

impl Copied for Column {
    fn copied(&self, alloc: Global) -> Result<Column, NoMemory> {
        self.copy(alloc)
    }
}

impl PartialEq for Column {
    ghost use Rattle.std.specs.Cmp.{partial_equiv_from_equiv};
    ghost use Rattle.dataset_types.specs.Same.{same_column, column_equiv};

    ghost eq = { same_column };

    ghost laws = { partial_equiv_from_equiv column_equiv };

    fn eq(&self, other: &Column) -> bool {
        self.name == other.name && self.kind == other.kind
    }
}

impl Eq for Column {
    ghost use Rattle.dataset_types.specs.Same.{column_equiv};

    ghost laws = { column_equiv };
}
