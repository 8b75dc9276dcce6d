//! What a step makes of one row.
ghost use Rattle.std.specs.Prelude.{◌≡◌, Ok, OnOk};
ghost use Rattle.relations.specs.Batches.{nothing, both};

use dataset_types::Rows;
use std::alloc::Global;
use value_types::NoMemory;

/// Rows, and whether a value that decided on rows has a caveat, which opens the relation.
#[derive(Drop)]
pub struct Batch {
    pub rows: Rows,
    pub marked: bool,
}

impl Batch {
    /// No rows, which take no memory.
    pub fn new(alloc: Global) -> Result<Batch, NoMemory>
        ensures { result ≡ Ok nothing }
    {
        Ok(Batch {
            rows: Rows::new(alloc)?,
            marked: false,
        })
    }

    /// The rows of another batch after its own.
    pub fn add(&mut self, alloc: Global, more: Batch) -> Result<(), NoMemory>
        ensures { OnOk result (self.new ≡ both self.old more) }
    {
        let Batch { rows, marked } = more;
        self.rows.append(alloc, rows)?;
        self.marked |= marked;
        Ok(())
    }
}
