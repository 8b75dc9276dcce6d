//! Tables, whose type keeps the rules and the limits of a dataset.
ghost use Rattle.std.specs.Prelude.{◌≡◌, ◌↔◌, true, false, Err, IsTrue, IsOk, IfOk};
ghost use Rattle.dataset_types.specs.Tables.{Distinct, column_names, row_ids, rows_fit, all_sure};
ghost use Rattle.dataset_types.specs.Tables.{IsTable, table_of, within_limits};

use crate::column::Columns;
use crate::limits::{few_bytes, few_columns, few_rows, few_values, ids_short, text_bytes};
use crate::row::Rows;
use std::alloc::Global;
use std::marker::Model;
use value_types::NoMemory;

/// A dataset: columns, rows, and whether rows may be missing or their order is uncertain.
#[derive(Drop)]
pub struct Table {
    columns: Columns,
    rows: Rows,
    is_open: bool,
    is_loose: bool,
}

impl Model for Table {
    ghost use Rattle.std.specs.Coded.{codes};
    ghost use Rattle.value_types.specs.contracts.row_id.RowId as row_id;
    ghost use Rattle.dataset_types.specs.Tables.{TableData, IsTable, table_of};

    ghost Value = { TableData };

    ghost coded = { Prim.hlevel (codes, row_id.the_row.coded) };

    ghost view = { λ t. table_of t.columns t.rows t.is_open t.is_loose };

    ghost invariant = { λ t. IsTable (table_of t.columns t.rows t.is_open t.is_loose) };
}

/// Why a table was not made.
#[derive(Clone, Copy, Debug, PartialEq, Eq)]
pub enum TableFault {
    /// A limit of a dataset is passed.
    TooLarge,
    NoMemory,
}

impl Table {
    /// The table of these parts, which are given up where a limit is passed.
    ///
    /// - Error: `TooLarge` exactly where a limit is passed; `NoMemory` never.
    /// - Source: docs/FORMATS.md, "Limits".
    pub fn new(
        _alloc: Global,
        columns: Columns,
        rows: Rows,
        is_open: bool,
        is_loose: bool,
    ) -> Result<Table, TableFault>
        requires names { Distinct (column_names columns) }
        requires ids { Distinct (row_ids rows) }
        requires fitting { IsTrue (rows_fit columns rows) }
        requires sure { is_open ≡ false → IsTrue (all_sure rows) }
        ensures value { IfOk result (λ t. t ≡ table_of columns rows is_open is_loose) }
        ensures fits { IsOk result ↔ IsTrue (within_limits (table_of columns rows is_open is_loose)) }
        ensures too_large { (result ≡ Err TableFault.TooLarge)
            ↔ (within_limits (table_of columns rows is_open is_loose) ≡ false) }
    {
        let within = few_columns(columns.len())
            && few_rows(rows.len())
            && few_values(rows.len(), columns.len())
            && few_bytes(text_bytes(rows.as_slice()))
            && ids_short(rows.as_slice());
        if !within {
            return Err(TableFault::TooLarge);
        }
        Ok(Table {
            columns,
            rows,
            is_open,
            is_loose,
        })
    }

    /// The rules and limits that every table keeps.
    pub fn law_of_rules(&self)
        ensures { IsTable self.now }
    {
        let _columns = &self.columns;
    }

    /// Its columns, in order.
    pub fn columns(&self) -> &Columns
        ensures { result.now ≡ self.now.columns }
    {
        &self.columns
    }

    /// Its rows, in order.
    pub fn rows(&self) -> &Rows
        ensures { result.now ≡ self.now.rows }
    {
        &self.rows
    }

    /// Whether it may lack rows or have others.
    pub fn is_open(&self) -> bool
        ensures { result ≡ self.now.is_open }
    {
        self.is_open
    }

    /// Whether the order of its rows is uncertain.
    pub fn is_loose(&self) -> bool
        ensures { result ≡ self.now.is_loose }
    {
        self.is_loose
    }

    /// An equal table.
    pub fn copy(&self, alloc: Global) -> Result<Table, NoMemory>
        ensures { IfOk result (λ t. t ≡ self.now) }
    {
        Ok(Table {
            columns: self.columns.copy(alloc)?,
            rows: self.rows.copy(alloc)?,
            is_open: self.is_open,
            is_loose: self.is_loose,
        })
    }
}

impl PartialEq for Table {
    ghost use Rattle.std.specs.Cmp.{partial_equiv_from_equiv};
    ghost use Rattle.dataset_types.specs.Same.{same_table, table_equiv};

    ghost eq = { same_table };

    ghost laws = { partial_equiv_from_equiv table_equiv };

    fn eq(&self, other: &Table) -> bool {
        self.columns == other.columns
            && self.rows == other.rows
            && self.is_open == other.is_open
            && self.is_loose == other.is_loose
    }
}

impl Eq for Table {
    ghost use Rattle.dataset_types.specs.Same.{table_equiv};

    ghost laws = { table_equiv };
}

/// Whether two tables are one by value, marks and flags included. It takes no memory.
#[tactic(auto, using(crate::specs::Same::table_decides))]
pub fn table_same(a: &Table, b: &Table) -> bool
    ensures { IsTrue result ↔ (a.now ≡ b.now) }
{
    a == b
}
