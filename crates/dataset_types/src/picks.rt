//! Picks: other choices at caveated places.
ghost use Rattle.std.specs.Prelude.{◌≡◌, ◌++◌, ◌∷◌, [], Ok, IfOk, OnOk, OnErr};
ghost use Rattle.std.specs.Option.{option_copied};
ghost use Rattle.dataset_types.specs.Picks.{same_site, choice_of, pick_of};

use std::alloc::Global;
use std::marker::Model;
use value_types::{Copied, ListOf, NoMemory, Value};

/// A caveated place of a cell. All numbers count from 1.
#[derive(Clone, Copy, Debug, PartialEq, Eq)]
pub enum Site {
    /// A repaired field of a load: its record and its column.
    Field { number: u32, column: u32 },
    /// A surplus record of a load.
    Record { number: u32 },
    /// A call of CAVEAT in the cell's text.
    Call { call: u32 },
}

/// What is chosen at a site.
#[derive(Drop)]
pub enum Choice {
    /// The value of a field or of a call.
    Value(Value),
    /// Whether a surplus record is kept.
    Keep(bool),
}

/// A choice at a site of a cell.
#[derive(Drop)]
pub struct Pick {
    pub cell: u32,
    pub site: Site,
    pub choice: Choice,
}

/// A list of picks, of which the last for a site counts.
#[derive(Drop)]
pub struct Picks {
    items: ListOf<Pick>,
}

impl Model for Picks {
    ghost use Rattle.std.specs.Prelude.{List};
    ghost use Rattle.dataset_types.specs.declared.picks.Pick.{Pick};

    ghost Value = { List Pick };

    ghost view = { λ p. p.items };
}

fn same_site(a: &Site, b: &Site) -> bool
    ensures { result ≡ same_site a.now b.now }
{
    match (a, b) {
        (
            Site::Field { number, column },
            Site::Field {
                number: n,
                column: c,
            },
        ) => number == n && column == c,
        (Site::Record { number }, Site::Record { number: n }) => number == n,
        (Site::Call { call }, Site::Call { call: c }) => call == c,
        _ => false,
    }
}

impl Choice {
    /// An equal choice.
    pub fn copy(&self, alloc: Global) -> Result<Choice, NoMemory>
        ensures { IfOk result (λ c. c ≡ self.now) }
    {
        match self {
            Choice::Value(value) => Ok(Choice::Value(value.copy(alloc)?)),
            Choice::Keep(keep) => Ok(Choice::Keep(*keep)),
        }
    }
}

impl Pick {
    /// An equal pick.
    pub fn copy(&self, alloc: Global) -> Result<Pick, NoMemory>
        ensures { IfOk result (λ p. p ≡ self.now) }
    {
        Ok(Pick {
            cell: self.cell,
            site: self.site,
            choice: self.choice.copy(alloc)?,
        })
    }
}

impl Copied for Pick {
    fn copied(&self, alloc: Global) -> Result<Pick, NoMemory> {
        self.copy(alloc)
    }
}

impl Picks {
    /// No picks.
    pub fn new(alloc: Global) -> Result<Picks, NoMemory>
        ensures { result ≡ Ok [] }
    {
        Ok(Picks {
            items: ListOf::new(alloc)?,
        })
    }

    /// One pick more, the last.
    pub fn push(
        &mut self,
        alloc: Global,
        cell: u32,
        site: Site,
        choice: Choice,
    ) -> Result<(), NoMemory>
        ensures ok { OnOk result (self.new ≡ self.old ++ pick_of cell site choice ∷ []) }
        ensures err { OnErr result (self.new ≡ self.old) }
    {
        self.items.push(alloc, Pick { cell, site, choice })
    }

    /// What is chosen at a site of a cell: the last pick of the list counts.
    pub fn choice(&self, cell: u32, site: &Site) -> Option<&Choice>
        ensures { option_copied result ≡ choice_of self.now cell site.now }
    {
        let mut found = None;
        for pick in self.items.as_slice() {
            if pick.cell == cell && same_site(&pick.site, site) {
                found = Some(&pick.choice);
            }
        }
        found
    }

    /// Equal picks.
    pub fn copy(&self, alloc: Global) -> Result<Picks, NoMemory>
        ensures { IfOk result (λ p. p ≡ self.now) }
    {
        Ok(Picks {
            items: self.items.copy(alloc)?,
        })
    }
}
