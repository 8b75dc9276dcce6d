//! Lists of names in which no name stands twice.
ghost use Rattle.std.specs.Prelude.{◌≡◌, ◌↔◌, IfOk, IfSome, IsSome, IsTrue};
ghost use Rattle.std.specs.List.{list_any};
ghost use Rattle.std.specs.Str.{bytes_eq};
ghost use Rattle.dataset_types.specs.Tables.{Distinct};
ghost use Rattle.sheet_commands.specs.Apart.{are_apart};

use std::alloc::Global;
use std::marker::Model;
use value_types::{Name, Names, NoMemory};

/// Names of which no two are equal.
#[derive(Drop)]
pub struct DistinctNames {
    names: Names,
}

impl Model for DistinctNames {
    ghost use Rattle.std.specs.Prelude.{List, ℕ};
    ghost use Rattle.dataset_types.specs.Tables.{Distinct};

    ghost Value = { List (List ℕ) };

    ghost view = { λ d. d.names };

    ghost invariant = { λ d. Distinct d.names };
}

fn is_among(names: &[Name], name: &Name) -> bool
    ensures { result ≡ list_any (bytes_eq name.now) names.now }
{
    names.iter().any(|other| name.same(other))
}

// Tested two by two.
fn are_apart(names: &[Name]) -> bool
    ensures { result ≡ are_apart names.now }
{
    for (i, name) in names.iter().enumerate() {
        if is_among(&names[i + 1..], name) {
            return false;
        }
    }
    true
}

// Whether no name comes twice.
#[tactic(auto, using(crate::proofs::ApartLemmas::apart_decides))]
fn are_distinct(names: &[Name]) -> bool
    ensures { IsTrue result ↔ Distinct names.now }
{
    are_apart(names)
}

impl DistinctNames {
    /// These names; none exactly where one comes twice. It takes time in the square of their number.
    pub fn of(names: Names) -> Option<DistinctNames>
        ensures found { IsSome result ↔ Distinct names }
        ensures value { IfSome result (λ d. d ≡ names) }
    {
        if are_distinct(names.as_slice()) {
            Some(DistinctNames { names })
        } else {
            None
        }
    }

    /// The names, lent.
    pub fn as_names(&self) -> &Names
        ensures names { result.now ≡ self.now }
        ensures distinct { Distinct result.now }
    {
        &self.names
    }

    /// Equal names.
    pub fn copy(&self, alloc: Global) -> Result<DistinctNames, NoMemory>
        ensures { IfOk result (λ d. d ≡ self.now) }
    {
        Ok(DistinctNames {
            names: self.names.copy(alloc)?,
        })
    }
}
