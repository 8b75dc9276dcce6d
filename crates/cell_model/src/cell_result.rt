//! What a run of a cell gives: a status, output lines, and the slots that it writes.
ghost use Rattle.std.specs.Prelude.{◌≡◌, ◌↔◌, Ok, IfOk, OnOk, OnErr, ◌++◌, ◌∷◌, [], Contains, IsTrue, is_some};
ghost use Rattle.dataset_types.specs.Slots.{find_slot};
ghost use Rattle.cell_model.specs.Runs.{bare, is_ok};
ghost use Rattle.dataset_types.specs.Envs.{names_of};

use cell_errors::CellError;
use dataset_types::{Named, Slot, Slots};
use std::alloc::Global;
use std::marker::Model;
use value_types::{ArcOf, Copied, ListOf, Name, NoMemory, Words};

/// How a cell ended.
#[derive(Clone, Copy, Debug, PartialEq, Eq)]
pub enum CellStatus {
    Ok,
    Error(CellError),
    /// It wasn't run, since a cell before it is in error.
    Blocked,
}

/// A line that a cell printed, and whether it has a caveat.
#[derive(Drop)]
pub struct Line {
    pub text: Words,
    pub marked: bool,
}

/// The lines of a cell, in order.
pub type Lines = ListOf<Line>;

/// The slots that a cell writes, each name once.
#[derive(Drop)]
pub struct Writes {
    slots: Slots,
}

impl Model for Writes {
    ghost use Rattle.std.specs.Prelude.{List, map};
    ghost use Rattle.std.specs.Coded.{codes};
    ghost use Rattle.value_types.specs.contracts.row_id.RowId as row_id;
    ghost use Rattle.dataset_types.specs.Tables.{Distinct};
    ghost use Rattle.dataset_types.specs.declared.slot.Named.{Named};

    ghost Value = { List Named };

    ghost coded = { Prim.hlevel (codes, row_id.the_row.coded) };

    ghost view = { λ w. w.slots };

    ghost invariant = { λ w. Distinct (map (λ n. n.name) w.slots) };
}

impl Writes {
    /// No writes, which takes no memory.
    pub fn new(alloc: Global) -> Result<Writes, NoMemory>
        ensures { result ≡ Ok [] }
    {
        Ok(Writes {
            slots: Slots::new(alloc)?,
        })
    }

    /// The names with their slots, in order.
    pub fn as_slice(&self) -> &[Named]
        ensures { result.now ≡ self.now }
    {
        self.slots.as_slice()
    }

    /// Whether the name has a slot here.
    #[tactic(auto, using(crate::proofs::Distinctness::found_is))]
    pub fn has(&self, name: &Name) -> bool
        ensures { IsTrue result ↔ Contains (names_of self.now) name.now }
    {
        has_name(self.slots.as_slice(), name)
    }

    /// One slot more, after the others.
    pub fn push(&mut self, alloc: Global, name: Name, slot: Slot) -> Result<(), NoMemory>
        requires { ¬ Contains (names_of self.old) name }
        ensures ok { OnOk result (self.new ≡ self.old ++ record { name = name; slot = slot } ∷ []) }
        ensures err { OnErr result (self.new ≡ self.old) }
    {
        self.slots.push(alloc, Named { name, slot })
    }

    /// Equal writes.
    pub fn copy(&self, alloc: Global) -> Result<Writes, NoMemory>
        ensures { IfOk result (λ w. w ≡ self.now) }
    {
        Ok(Writes {
            slots: self.slots.copy(alloc)?,
        })
    }
}

/// What a run of a cell gives.
#[derive(Drop)]
pub struct CellResult {
    pub status: CellStatus,
    pub lines: Lines,
    pub writes: Writes,
    /// Whether it is uncertain which names were written, so that every name is in doubt after it.
    pub blur: bool,
}

/// The results of a version's cells, in order. They are shared.
pub type Results = ListOf<ArcOf<CellResult>>;

impl Line {
    /// An equal line.
    pub fn copy(&self, alloc: Global) -> Result<Line, NoMemory>
        ensures { IfOk result (λ l. l ≡ self.now) }
    {
        Ok(Line {
            text: self.text.copy(alloc)?,
            marked: self.marked,
        })
    }
}

impl Copied for Line {
    fn copied(&self, alloc: Global) -> Result<Line, NoMemory> {
        self.copy(alloc)
    }
}

// Whether an entry has the name.
pub fn has_name(slots: &[Named], name: &Name) -> bool
    ensures { result ≡ is_some (find_slot slots.now name.now) }
{
    for e in slots {
        if e.name.same(name) {
            return true;
        }
    }
    false
}

impl CellResult {
    /// A status alone: no lines, no writes and no blur.
    pub fn bare(alloc: Global, status: CellStatus) -> Result<CellResult, NoMemory>
        ensures { result ≡ Ok (bare status) }
    {
        Ok(CellResult {
            status,
            lines: Lines::new(alloc)?,
            writes: Writes::new(alloc)?,
            blur: false,
        })
    }

    /// An equal result.
    pub fn copy(&self, alloc: Global) -> Result<CellResult, NoMemory>
        ensures { IfOk result (λ r. r ≡ self.now) }
    {
        Ok(CellResult {
            status: self.status,
            lines: self.lines.copy(alloc)?,
            writes: self.writes.copy(alloc)?,
            blur: self.blur,
        })
    }
}

impl CellStatus {
    /// Whether the cell ended without an error.
    pub fn is_ok(self) -> bool
        ensures { result ≡ is_ok self }
    {
        matches!(self, CellStatus::Ok)
    }
}
