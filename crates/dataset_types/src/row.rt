//! Rows: an id, whether the row is sure, and a value for each column.
ghost use Rattle.std.specs.Prelude.{◌≡◌, IfOk};

use std::alloc::Global;
use value_types::{Copied, ListOf, NoMemory, RowId, Value};

/// A value, and whether it has a caveat.
#[derive(Drop)]
pub struct Marked {
    pub value: Value,
    pub marked: bool,
}

/// The values of a row, one for each column.
pub type MarkedValues = ListOf<Marked>;

/// A row of a dataset. One that isn't sure may not be there.
#[derive(Drop)]
pub struct Row {
    pub id: RowId,
    pub sure: bool,
    pub values: MarkedValues,
}

/// The rows of a dataset, in order.
pub type Rows = ListOf<Row>;

impl Marked {
    /// An equal value.
    pub fn copy(&self, alloc: Global) -> Result<Marked, NoMemory>
        ensures { IfOk result (λ m. m ≡ self.now) }
    {
        Ok(Marked {
            value: self.value.copy(alloc)?,
            marked: self.marked,
        })
    }
}

impl Copied for Marked {
    fn copied(&self, alloc: Global) -> Result<Marked, NoMemory> {
        self.copy(alloc)
    }
}

impl Row {
    /// An equal row.
    pub fn copy(&self, alloc: Global) -> Result<Row, NoMemory>
        ensures { IfOk result (λ r. r ≡ self.now) }
    {
        Ok(Row {
            id: self.id.copy(alloc)?,
            sure: self.sure,
            values: self.values.copy(alloc)?,
        })
    }
}

impl Copied for Row {
    fn copied(&self, alloc: Global) -> Result<Row, NoMemory> {
        self.copy(alloc)
    }
}

impl PartialEq for Marked {
    ghost use Rattle.std.specs.Cmp.{partial_equiv_from_equiv};
    ghost use Rattle.dataset_types.specs.Same.{same_marked, marked_equiv};

    ghost eq = { same_marked };

    ghost laws = { partial_equiv_from_equiv marked_equiv };

    fn eq(&self, other: &Marked) -> bool {
        self.value == other.value && self.marked == other.marked
    }
}

impl Eq for Marked {
    ghost use Rattle.dataset_types.specs.Same.{marked_equiv};

    ghost laws = { marked_equiv };
}

impl PartialEq for Row {
    ghost use Rattle.std.specs.Cmp.{partial_equiv_from_equiv};
    ghost use Rattle.dataset_types.specs.Same.{same_row, row_equiv};

    ghost eq = { same_row };

    ghost laws = { partial_equiv_from_equiv row_equiv };

    fn eq(&self, other: &Row) -> bool {
        self.id == other.id && self.sure == other.sure && self.values == other.values
    }
}

impl Eq for Row {
    ghost use Rattle.dataset_types.specs.Same.{row_equiv};

    ghost laws = { row_equiv };
}
