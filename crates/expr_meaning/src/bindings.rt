//! Names with their values, and names with their types.
ghost use Rattle.std.specs.Prelude.{◌≡◌, IfOk};

use crate::named::Named;
use dataset_types::{Column, Marked};
use std::alloc::Global;
use value_types::{Copied, ListOf, Name, NoMemory};

/// A column or a variable, and its value.
#[derive(Drop)]
pub struct Binding {
    /// None where it has none.
    pub qualifier: Option<Name>,
    pub name: Name,
    pub value: Marked,
}

/// What the names of an expression stand for.
pub type Bindings = ListOf<Binding>;

/// A column of a relation, and its qualifier.
#[derive(Drop)]
pub struct ScopeColumn {
    /// None where it has none.
    pub qualifier: Option<Name>,
    pub column: Column,
}

/// The columns that the names of an expression stand for.
pub type Scope = ListOf<ScopeColumn>;

fn copy_name(name: &Option<Name>) -> Option<Name>
    ensures { result ≡ name.now }
{
    match name {
        None => None,
        Some(name) => Some(name.copy()),
    }
}

impl Binding {
    /// An equal binding.
    pub fn copy(&self, alloc: Global) -> Result<Binding, NoMemory>
        ensures { IfOk result (λ b. b ≡ self.now) }
    {
        Ok(Binding {
            qualifier: copy_name(&self.qualifier),
            name: self.name.copy(),
            value: self.value.copy(alloc)?,
        })
    }
}

impl Copied for Binding {
    fn copied(&self, alloc: Global) -> Result<Binding, NoMemory> {
        self.copy(alloc)
    }
}

impl Named for Binding {
    ghost qualifier_of = { λ b. b.qualifier };

    ghost name_of = { λ b. b.name };

    fn qualifier(&self) -> &Option<Name> {
        &self.qualifier
    }

    fn name(&self) -> &Name {
        &self.name
    }
}

impl ScopeColumn {
    /// An equal column.
    pub fn copy(&self, alloc: Global) -> Result<ScopeColumn, NoMemory>
        ensures { IfOk result (λ c. c ≡ self.now) }
    {
        Ok(ScopeColumn {
            qualifier: copy_name(&self.qualifier),
            column: self.column.copy(alloc)?,
        })
    }
}

impl Copied for ScopeColumn {
    fn copied(&self, alloc: Global) -> Result<ScopeColumn, NoMemory> {
        self.copy(alloc)
    }
}

impl Named for ScopeColumn {
    ghost qualifier_of = { λ c. c.qualifier };

    ghost name_of = { λ c. c.column.name };

    fn qualifier(&self) -> &Option<Name> {
        &self.qualifier
    }

    fn name(&self) -> &Name {
        &self.column.name
    }
}
