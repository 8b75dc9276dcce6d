//! Relations, whose type keeps their rules and limits.
ghost use Rattle.std.specs.Prelude.{◌≡◌};
ghost use Rattle.cell_errors.specs.Answers.{Gives};
ghost use Rattle.relations.specs.Rels.{KeepsRules, IsRel, rel_of, whole};

use crate::limits::within_limits;
use crate::parts::RelParts;
use cell_errors::{CellError, EvalFault};
use dataset_types::Rows;
use expr_meaning::Scope;
use std::alloc::Global;
use std::marker::Model;

/// A relation: columns with their qualifiers, rows, and whether rows may be missing or their order is uncertain.
#[derive(Drop)]
pub struct Rel {
    pub columns: Scope,
    pub rows: Rows,
    pub is_open: bool,
    pub is_loose: bool,
}

impl Model for Rel {
    ghost use Rattle.std.specs.Coded.{codes};
    ghost use Rattle.value_types.specs.contracts.row_id.RowId as row_id;
    ghost use Rattle.relations.specs.Rels.{RelData, IsRel, rel_of};

    ghost Value = { RelData };

    ghost coded = { Prim.hlevel (codes, row_id.the_row.coded) };

    ghost view = { λ r. rel_of r.columns r.rows r.is_open r.is_loose };

    ghost invariant = { λ r. IsRel (rel_of r.columns r.rows r.is_open r.is_loose) };
}

impl Rel {
    /// The relation of these parts, which are given up where a limit is passed.
    ///
    /// - Error: `TooLarge` exactly where a limit is passed.
    /// - Source: docs/FORMATS.md, "Limits".
    pub fn new(
        _alloc: Global,
        columns: Scope,
        rows: Rows,
        is_open: bool,
        is_loose: bool,
    ) -> Result<Rel, EvalFault>
        requires { KeepsRules (rel_of columns rows is_open is_loose) }
        ensures { Gives result (whole (rel_of columns rows is_open is_loose)) }
    {
        if !within_limits(columns.as_slice(), rows.as_slice()) {
            return Err(EvalFault::Error(CellError::TooLarge));
        }
        Ok(Rel {
            columns,
            rows,
            is_open,
            is_loose,
        })
    }

    /// The rules and limits that every relation keeps.
    pub fn law_of_rules(&self)
        ensures { IsRel self.now }
    {
        let _columns = &self.columns;
    }

    /// Its columns, in order.
    pub fn columns(&self) -> &Scope
        ensures { result.now ≡ self.now.columns }
    {
        &self.columns
    }

    /// Its rows, in order.
    pub fn rows(&self) -> &Rows
        ensures { result.now ≡ self.now.rows }
    {
        &self.rows
    }

    /// Whether it may lack rows or have others.
    pub fn is_open(&self) -> bool
        ensures { result ≡ self.now.is_open }
    {
        self.is_open
    }

    /// Whether the order of its rows is uncertain.
    pub fn is_loose(&self) -> bool
        ensures { result ≡ self.now.is_loose }
    {
        self.is_loose
    }

    /// Its parts, where the relation is done with.
    pub fn into_parts(self) -> RelParts
        ensures parts { rel_of result.columns result.rows result.is_open result.is_loose ≡ self }
        ensures rules { IsRel self }
    {
        let Rel {
            columns,
            rows,
            is_open,
            is_loose,
        } = self;
        RelParts {
            columns,
            rows,
            is_open,
            is_loose,
        }
    }
}
