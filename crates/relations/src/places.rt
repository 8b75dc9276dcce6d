//! The places of columns, counted from 0.
ghost use Rattle.std.specs.Prelude.{◌≡◌, ◌<◌, IfOk, IfSome, length, map};
ghost use Rattle.relations.specs.Places as spec;
ghost use Rattle.relations.specs.Places.{ReadsPlace, placed_from};

use cell_errors::CellError;
use expr_lang::Expr;
use expr_meaning::{Named, ScopeColumn, meant};
use std::alloc::Global;
use std::marker::Model;
use value_types::{ListOf, Name, NoMemory};

/// A column, and its place among others, counted from 0.
#[derive(Drop)]
pub(crate) struct ColumnAt {
    pub place: usize,
    pub column: ScopeColumn,
}

impl Named for ColumnAt {
    ghost qualifier_of = { λ p. p.column.qualifier };

    ghost name_of = { λ p. p.column.column.name };

    fn qualifier(&self) -> &Option<Name> {
        &self.column.qualifier
    }

    fn name(&self) -> &Name {
        &self.column.column.name
    }
}

/// The columns of a relation, each with its place.
#[derive(Drop)]
pub struct ColumnPlaces {
    all: ListOf<ColumnAt>,
}

impl Model for ColumnPlaces {
    ghost use Rattle.std.specs.Prelude.{◌≡◌, List, map};
    ghost use Rattle.std.specs.Coded.{codes};
    ghost use Rattle.relations.specs.Places.{placed_from};
    ghost use Rattle.expr_meaning.specs.declared.bindings.ScopeColumn.{ScopeColumn};

    ghost Value = { List ScopeColumn };

    ghost coded = { Prim.hlevel codes };

    ghost view = { λ p. map (λ c. c.column) p.all };

    ghost invariant = { λ p. p.all ≡ placed_from 0 (map (λ c. c.column) p.all) };
}

fn placed(alloc: Global, columns: &[ScopeColumn]) -> Result<ListOf<ColumnAt>, NoMemory>
    ensures { IfOk result (λ ps. ps ≡ placed_from 0 columns.now) }
{
    let mut all = ListOf::new(alloc)?;
    for (place, column) in columns.iter().enumerate() {
        let column = column.copy(alloc)?;
        all.push(alloc, ColumnAt { place, column })?;
    }
    Ok(all)
}

impl ColumnPlaces {
    /// These columns with their places.
    #[tactic(auto, using(crate::proofs::ReadPlaces::placing))]
    pub fn new(alloc: Global, columns: &[ScopeColumn]) -> Result<ColumnPlaces, NoMemory>
        ensures { IfOk result (λ places. places ≡ columns.now) }
    {
        let all = placed(alloc, columns)?;
        Ok(ColumnPlaces { all })
    }

    /// The place of the column that a name stands for.
    ///
    /// - Error: `NoColumn` exactly where there is none, or two of them.
    pub fn place_of(&self, qualifier: &Option<Name>, name: &Name) -> Result<usize, CellError>
        ensures value { result ≡ spec.place_of self.now qualifier.now name.now }
        ensures within { IfOk result (λ place. place < length self.now) }
    {
        let found = meant(self.all.as_slice(), qualifier, name)?;
        Ok(found.place)
    }

    /// The place of the column that an expression is, where it is one of these.
    #[tactic(auto, using(crate::proofs::ReadPlaces::reading))]
    pub fn column_place(&self, expr: &Expr) -> Option<usize>
        ensures value { result ≡ spec.column_place self.now expr.now }
        ensures within { IfSome result (λ place. place < length self.now) }
        ensures reads { IfSome result (λ place. ReadsPlace self.now place expr.now) }
    {
        match expr {
            Expr::Column { qualifier, name } => self.place_of(qualifier, name).ok(),
            _ => None,
        }
    }
}
