//! The items.
ghost use Rattle.std.specs.Prelude.{◌≡◌, Ok, OnOk};
ghost use Rattle.cell_errors.specs.Answers.{Gives};
ghost use Rattle.dataset_types.specs.Tables.{Distinct};
ghost use Rattle.expr_meaning.specs.Calls.{type_setting};
ghost use Rattle.expr_meaning.specs.Types.{over_columns};
ghost use Rattle.relations.specs.Batches.{both, gathered};
ghost use Rattle.relations.specs.Bound.{AreUnder};
ghost use Rattle.rel_ops.specs.Project as spec;
ghost use Rattle.rel_ops.specs.Project.{item_names, item_row, no_error, projected, projected_to, with_values};

use cell_errors::{CellError, EvalFault};
use dataset_types::{Column, Marked, MarkedValues, Picks, Row, few_values};
use expr_meaning::{Bindings, ExprType, Scope, ScopeColumn, TypedSetting, eval, type_in};
use relations::{Batch, Item, Items, Rel, bind_again};
use std::alloc::Global;
use value_types::{ColumnType, Name, NoMemory};

fn kind_of(of: ExprType) -> ColumnType
    ensures { result ≡ spec.kind_of of }
{
    match of {
        ExprType::Null => ColumnType::Text,
        ExprType::Of(kind) => kind,
    }
}

/// The output column of an expression of this type.
fn output_column(name: &Name, of: ExprType) -> ScopeColumn
    ensures { result ≡ spec.output_column name.now of }
{
    ScopeColumn {
        qualifier: None,
        column: Column {
            name: name.copy(),
            kind: kind_of(of),
        },
    }
}

fn item_column(types: &TypedSetting, item: &Item) -> Result<ScopeColumn, EvalFault>
    ensures { Gives result (spec.item_column (type_setting types.now) item.now) }
{
    let of = type_in(&item.expr, types)?;
    Ok(output_column(&item.name, of))
}

/// The output columns of items, over a row or in groups.
///
/// - Shape: each has its item's name and type and no qualifier; one that is NULL alone is Text.
/// - Error: the first of the items' types.
#[tactic(auto, using(relations::proofs::Collecting::collecting))]
pub fn item_columns(alloc: Global, types: &TypedSetting, items: &[Item]) -> Result<Scope, EvalFault>
    ensures { Gives result (spec.item_columns (type_setting types.now) items.now) }
{
    let mut all = Scope::new(alloc)?;
    for item in items {
        let column = item_column(types, item)?;
        all.push(alloc, column)?;
    }
    Ok(all)
}

fn value_of(
    alloc: Global,
    item: &Item,
    row: &Bindings,
    picks: &Picks,
    cell: u32,
) -> Result<Marked, EvalFault>
    ensures { Gives result (spec.item_value row.now picks.now cell item.now) }
{
    let value = eval(alloc, &item.expr, row, picks, cell)?;
    Ok(value)
}

#[tactic(auto, using(relations::proofs::Collecting::collecting))]
fn values_of(
    alloc: Global,
    items: &[Item],
    row: &Bindings,
    picks: &Picks,
    cell: u32,
) -> Result<MarkedValues, EvalFault>
    ensures { Gives result (spec.values_over row.now items.now picks.now cell) }
{
    let mut values = MarkedValues::new(alloc)?;
    for item in items {
        let value = value_of(alloc, item, row, picks, cell)?;
        values.push(alloc, value)?;
    }
    Ok(values)
}

/// The items over a row. `bound` has the row before it, or nothing, and has this row afterwards: the names stay.
#[tactic(auto, using(crate::proofs::WhereRows::binding))]
fn values_at(
    alloc: Global,
    columns: &[ScopeColumn],
    bound: &mut Bindings,
    items: &[Item],
    picks: &Picks,
    cell: u32,
    row: &Row,
) -> Result<MarkedValues, EvalFault>
    requires { AreUnder columns.now bound.old }
    ensures value { Gives result (spec.values_at columns.now items.now picks.now cell row.now) }
    ensures bound { OnOk result (AreUnder columns.now bound.new) }
{
    bind_again(alloc, bound, columns, row.values.as_slice())?;
    values_of(alloc, items, bound, picks, cell)
}

/// The row with the values of the items, put after those before it.
#[tactic(auto, using(crate::proofs::ItemRows::adding))]
fn add_row(alloc: Global, all: &mut Batch, row: &Row, values: MarkedValues) -> Result<(), NoMemory>
    ensures { OnOk result (all.new ≡ both all.old (with_values row.now values)) }
{
    let id = row.id.copy(alloc)?;
    all.rows.push(
        alloc,
        Row {
            id,
            sure: row.sure,
            values,
        },
    )?;
    Ok(())
}

#[tactic(auto, using(crate::proofs::ItemRows::rows))]
fn item_rows(
    alloc: Global,
    columns: &[ScopeColumn],
    rows: &[Row],
    items: &[Item],
    picks: &Picks,
    cell: u32,
) -> Result<Batch, EvalFault>
    ensures { Gives result (gathered (item_row columns.now items.now picks.now cell) rows.now) }
{
    let mut all = Batch::new(alloc)?;
    let mut bound = Bindings::new(alloc)?;
    for row in rows {
        let values = values_at(alloc, columns, &mut bound, items, picks, cell, row)?;
        add_row(alloc, &mut all, row, values)?;
    }
    Ok(all)
}

/// The items over each row, for their errors alone.
#[tactic(auto, using(crate::proofs::TooMany::checking))]
fn check_rows(
    alloc: Global,
    columns: &[ScopeColumn],
    rows: &[Row],
    items: &[Item],
    picks: &Picks,
    cell: u32,
) -> Result<(), EvalFault>
    ensures { Gives result
        (no_error (gathered (item_row columns.now items.now picks.now cell) rows.now)) }
{
    let mut bound = Bindings::new(alloc)?;
    for row in rows {
        values_at(alloc, columns, &mut bound, items, picks, cell, row)?;
    }
    Ok(())
}

/// Where the values of all rows would be too many, none of them is kept.
fn with_columns(
    alloc: Global,
    rel: &Rel,
    columns: Scope,
    items: &Items,
    picks: &Picks,
    cell: u32,
) -> Result<Rel, EvalFault>
    requires names { Distinct (item_names items.now) }
    requires columns { spec.item_columns (over_columns rel.now.columns) items.now ≡ Ok columns }
    ensures { Gives result (projected_to columns rel.now items.now picks.now cell) }
{
    rel.law_of_rules();
    let of = rel.columns().as_slice();
    let rows = rel.rows().as_slice();
    if !few_values(rows.len(), items.len()) {
        check_rows(alloc, of, rows, items.as_slice(), picks, cell)?;
        return Err(EvalFault::Error(CellError::TooLarge));
    }
    let all = item_rows(alloc, of, rows, items.as_slice(), picks, cell)?;
    Rel::new(alloc, columns, all.rows, rel.is_open(), rel.is_loose())
}

/// One value for each item in each row, which keeps its id.
///
/// - Shape: the output columns have the items' names, no qualifier, and the items' types; one that is NULL alone is Text.
/// - Error: the first of the items' types; then the first of a value, in the order of rows and in each of items; then
///   `TooLarge` where the whole result passes a limit.
/// - Source: docs/SELECT.md.
pub fn project(
    alloc: Global,
    rel: &Rel,
    items: &Items,
    picks: &Picks,
    cell: u32,
) -> Result<Rel, EvalFault>
    requires names { Distinct (item_names items.now) }
    ensures { Gives result (projected rel.now items.now picks.now cell) }
{
    let types = TypedSetting {
        columns: rel.columns(),
        group: None,
    };
    let columns = item_columns(alloc, &types, items.as_slice())?;
    with_columns(alloc, rel, columns, items, picks, cell)
}
