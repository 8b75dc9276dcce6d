//! The command that computes a column.
ghost use Rattle.std.specs.Prelude.{◌≡◌, OnOk};
ghost use Rattle.cell_errors.specs.Answers.{Gives, collect};
ghost use Rattle.relations.specs.Bound.{AreUnder};
ghost use Rattle.column_edits.specs.Filling as fill;
ghost use Rattle.column_edits.specs.Filling.{value_by};
ghost use Rattle.column_edits.specs.Formula as spec;

use crate::filling::filled_shared;
use crate::layout::as_they_stand;
use crate::plans::find;
use cell_errors::{CellError, EvalFault};
use dataset_types::{Column, Marked, MarkedValues, Picks, Row, Table};
use edit_results::as_fixed;
use expr_lang::Expr;
use expr_meaning::{Bindings, ExprType, Scope, eval, type_of};
use relations::{bind_again, qualified_columns};
use std::alloc::Global;
use value_types::{ArcOf, ColumnType, Name, Value};

fn goes_into(kind: ColumnType, of: ExprType) -> bool
    ensures { result ≡ spec.goes_into kind of }
{
    match (kind, of) {
        (_, ExprType::Null) | (ColumnType::Fixed, ExprType::Of(ColumnType::Int)) => true,
        (kind, ExprType::Of(other)) => kind == other,
    }
}

fn formula_type(
    alloc: Global,
    name: &Name,
    expr: &Expr,
    columns: &[Column],
    scope: &Scope,
) -> Result<ColumnType, EvalFault>
    requires scope { scope.now ≡ spec.scope columns.now }
    ensures { Gives result (spec.formula_type name.now expr.now columns.now) }
{
    let layout = as_they_stand(alloc, columns)?;
    let kind = find(alloc, name, layout.as_slice())?.column.kind;
    let of = type_of(alloc, expr, scope)?;
    if !goes_into(kind, of) {
        return Err(EvalFault::Error(CellError::TypeFault));
    }
    Ok(kind)
}

fn entered(kind: ColumnType, value: Value) -> Result<Value, CellError>
    ensures { result ≡ spec.entered kind value }
{
    match (kind, value) {
        (ColumnType::Fixed, Value::Int(n)) => as_fixed(n),
        (_, value) => Ok(value),
    }
}

/// What a formula is computed with in each row.
#[derive(Clone, Copy)]
struct InRow<'a> {
    scope: &'a Scope,
    expr: &'a Expr,
    picks: &'a Picks,
    cell: u32,
    kind: ColumnType,
}

/// The value over a row. `bound` has the row before it, or nothing, and has this row afterwards: the names stay.
#[tactic(auto, using(relations::proofs::Revalued::under))]
fn formula_value(
    alloc: Global,
    how: &InRow,
    bound: &mut Bindings,
    row: &Row,
) -> Result<Marked, EvalFault>
    requires { AreUnder how.now.scope.now bound.old }
    ensures value { Gives result (value_by how.now row.now) }
    ensures bound { OnOk result (AreUnder how.now.scope.now bound.new) }
{
    bind_again(alloc, bound, how.scope.as_slice(), row.values.as_slice())?;
    let Marked { value, marked } = eval(alloc, how.expr, bound, how.picks, how.cell)?;
    let value = entered(how.kind, value)?;
    Ok(Marked { value, marked })
}

#[tactic(auto, using(relations::proofs::Collecting::collecting, relations::proofs::Revalued::under))]
fn formula_values(alloc: Global, how: &InRow, rows: &[Row]) -> Result<MarkedValues, EvalFault>
    ensures { Gives result (collect (value_by how.now) rows.now) }
{
    let mut all = MarkedValues::new(alloc)?;
    let mut bound = Bindings::new(alloc)?;
    for row in rows {
        let value = formula_value(alloc, how, &mut bound, row)?;
        all.push(alloc, value)?;
    }
    Ok(all)
}

fn values_of(
    alloc: Global,
    table: &Table,
    column: &Name,
    expr: &Expr,
    picks: &Picks,
    cell: u32,
) -> Result<MarkedValues, EvalFault>
    ensures { Gives result (fill.values_of column.now expr.now picks.now cell table.now) }
{
    let columns = table.columns().as_slice();
    let scope = qualified_columns(alloc, columns, &None)?;
    let kind = formula_type(alloc, column, expr, columns, &scope)?;
    let how = InRow {
        scope: &scope,
        expr,
        picks,
        cell,
        kind,
    };
    formula_values(alloc, &how, table.rows().as_slice())
}

/// The value of a column computed from the values of its row, with the marks of what was looked at.
///
/// - Shape: an Int goes into a Fixed column as its widening, and NULL into each column. Where each row has its value with its mark
///   already, the table is the same one, shared once more.
/// - Error: `NoColumn` where no column has the name; then the first error of the expression's types; then `TypeFault` where its type
///   doesn't go into the column; then the first of evaluation, or `Overflow` of a widening, in the order of rows; then `TooLarge`.
/// - Source: docs/EDITING.md; docs/EXPRESSIONS.md.
pub fn formula(
    alloc: Global,
    table: &ArcOf<Table>,
    column: &Name,
    expr: &Expr,
    picks: &Picks,
    cell: u32,
) -> Result<ArcOf<Table>, EvalFault>
    ensures { Gives result (spec.formula column.now expr.now picks.now cell table.now) }
{
    let own = table.get();
    own.law_of_rules();
    let values = values_of(alloc, own, column, expr, picks, cell)?;
    filled_shared(alloc, table, column, values.as_slice())
}
