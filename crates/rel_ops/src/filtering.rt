//! WHERE.
ghost use Rattle.std.specs.Prelude.{◌≡◌, OnOk};
ghost use Rattle.cell_errors.specs.Answers.{Gives};
ghost use Rattle.relations.specs.Batches.{both, gathered};
ghost use Rattle.relations.specs.Bound.{AreUnder};
ghost use Rattle.relations.specs.Conditions.{kept};
ghost use Rattle.relations.specs.Rels.{table_rel};
ghost use Rattle.rel_ops.specs.Filter.{row_test, where_row, filtered};

use cell_errors::EvalFault;
use dataset_types::{Picks, Row, Rows, Table};
use expr_lang::Expr;
use expr_meaning::{Bindings, ScopeColumn};
use relations::{Batch, Rel, RelParts, Test, bind_again, qualified_columns, test_row};
use std::alloc::Global;
use value_types::{Name, NoMemory};

/// The condition over a row. `bound` has the row before it, or nothing, and has this row afterwards: the names stay.
#[tactic(auto, using(crate::proofs::WhereRows::binding))]
fn test_at(
    alloc: Global,
    columns: &[ScopeColumn],
    bound: &mut Bindings,
    condition: &Expr,
    picks: &Picks,
    cell: u32,
    row: &Row,
) -> Result<Test, EvalFault>
    requires { AreUnder columns.now bound.old }
    ensures value { Gives result (row_test columns.now condition.now picks.now cell row.now) }
    ensures bound { OnOk result (AreUnder columns.now bound.new) }
{
    bind_again(alloc, bound, columns, row.values.as_slice())?;
    test_row(alloc, condition, bound, picks, cell)
}

#[tactic(auto, using(crate::proofs::WhereRows::keeping))]
fn kept_rows(
    alloc: Global,
    columns: &[ScopeColumn],
    rows: Rows,
    condition: &Expr,
    picks: &Picks,
    cell: u32,
) -> Result<Batch, EvalFault>
    ensures { Gives result (gathered (where_row columns.now condition.now picks.now cell) rows) }
{
    let mut all = Batch::new(alloc)?;
    let mut bound = Bindings::new(alloc)?;
    for row in rows.into_vec() {
        let test = test_at(alloc, columns, &mut bound, condition, picks, cell, &row)?;
        all.keep(alloc, row, test)?;
    }
    Ok(all)
}

/// WHERE: the rows for which the condition is TRUE.
///
/// - Marks: a row whose condition is marked is unsure; a marked condition on any row opens.
/// - Error: the first of a row's condition, in the order of rows; `TypeFault` where its value is neither a Bool nor NULL.
/// - Source: docs/SELECT.md.
pub fn filter(
    alloc: Global,
    rel: Rel,
    condition: &Expr,
    picks: &Picks,
    cell: u32,
) -> Result<Rel, EvalFault>
    ensures { Gives result (filtered rel condition.now picks.now cell) }
{
    let RelParts {
        columns,
        rows,
        is_open,
        is_loose,
    } = rel.into_parts();
    let kept = kept_rows(alloc, columns.as_slice(), rows, condition, picks, cell)?;
    Rel::new(alloc, columns, kept.rows, is_open | kept.marked, is_loose)
}

#[tactic(auto, using(crate::proofs::WhereRows::left_out))]
fn keep_copy(alloc: Global, all: &mut Batch, row: &Row, test: Test) -> Result<(), NoMemory>
    ensures { OnOk result (all.new ≡ both all.old (kept row.now test)) }
{
    // A copy costs more than the test, and most rows may be left out.
    if test.holds {
        let copy = row.copy(alloc)?;
        all.keep(alloc, copy, test)?;
    } else {
        all.marked |= test.marked;
    }
    Ok(())
}

#[tactic(auto, using(crate::proofs::WhereRows::keeping))]
fn kept_copies(
    alloc: Global,
    columns: &[ScopeColumn],
    rows: &[Row],
    condition: &Expr,
    picks: &Picks,
    cell: u32,
) -> Result<Batch, EvalFault>
    ensures { Gives result (gathered (where_row columns.now condition.now picks.now cell) rows.now) }
{
    let mut all = Batch::new(alloc)?;
    let mut bound = Bindings::new(alloc)?;
    for row in rows {
        let test = test_at(alloc, columns, &mut bound, condition, picks, cell, row)?;
        keep_copy(alloc, &mut all, row, test)?;
    }
    Ok(all)
}

/// WHERE over a dataset, its columns under a qualifier: what `filter` gives of its relation, where only the kept rows are copied.
///
/// - Marks and errors: those of `filter`.
pub fn filter_table(
    alloc: Global,
    table: &Table,
    qualifier: &Option<Name>,
    condition: &Expr,
    picks: &Picks,
    cell: u32,
) -> Result<Rel, EvalFault>
    ensures { Gives result
        (filtered (table_rel qualifier.now table.now) condition.now picks.now cell) }
{
    table.law_of_rules();
    let columns = qualified_columns(alloc, table.columns().as_slice(), qualifier)?;
    let rows = table.rows().as_slice();
    let kept = kept_copies(alloc, columns.as_slice(), rows, condition, picks, cell)?;
    let is_open = table.is_open() | kept.marked;
    Rel::new(alloc, columns, kept.rows, is_open, table.is_loose())
}
