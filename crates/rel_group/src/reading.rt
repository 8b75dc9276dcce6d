//! Items that are read at their places, for which no row of a group is bound.
ghost use Rattle.std.specs.Prelude.{◌≡◌, IfOk, Ok, OnOk, length, pos, slice_get};
ghost use Rattle.std.specs.Option.{option_copied};
ghost use Rattle.value_types.specs.declared.value.Value.TheVariants.{Int};
ghost use Rattle.expr_lang.specs.declared.expr.Expr.{CountAll};
ghost use Rattle.rel_group.specs.Calls as calls;
ghost use Rattle.rel_group.specs.Calls.{HasColumnPlaces, MayGive, bound_in, expr_in, key_bindings};
ghost use Rattle.rel_group.specs.Calls.{operands_at, over_in, rows_by, value_in, with_operand};

use crate::binding::row_at;
use crate::job::Job;
use crate::parts::Lot;
use cell_errors::EvalFault;
use dataset_types::{Marked, MarkedValues, Row};
use expr_lang::Expr;
use expr_meaning::{Bindings, eval};
use expr_ops::{Aggregate, aggregated};
use relations::Item;
use std::alloc::Global;
use value_types::{NoMemory, Value, Values};

/// The values of a column in the rows of a group, and whether one of them is marked.
#[derive(Drop)]
pub struct Operands {
    pub values: Values,
    pub marked: bool,
}

/// The value at a place of the row at another. Places count from 0.
fn operand_at(rows: &[Row], place: usize, at: usize) -> Option<&Marked>
    ensures { option_copied result ≡ value_in place (slice_get rows.now at) }
{
    match row_at(rows, at) {
        None => None,
        Some(row) => row.values.as_slice().get(place),
    }
}

fn add_operand(alloc: Global, all: &mut Operands, operand: &Marked) -> Result<(), NoMemory>
    ensures { OnOk result (all.new ≡ with_operand all.old operand.now) }
{
    all.values.push(alloc, operand.value.copy(alloc)?)?;
    all.marked |= operand.marked;
    Ok(())
}

/// The values at a place of the rows of a group.
#[tactic(auto, using(crate::proofs::ReadLots::operands))]
fn read_operands(
    alloc: Global,
    place: usize,
    rows: &[Row],
    of_group: &[usize],
) -> Result<Operands, NoMemory>
    ensures { IfOk result
        (λ all. all ≡ operands_at place (rows_by rows.now of_group.now)) }
{
    let mut all = Operands {
        values: Values::new(alloc)?,
        marked: false,
    };
    for at in of_group {
        if let Some(operand) = operand_at(rows, place, *at) {
            add_operand(alloc, &mut all, operand)?;
        }
    }
    Ok(all)
}

/// An aggregate, where its operand is a column.
fn over_column(
    alloc: Global,
    op: Aggregate,
    of: &Expr,
    lot: &Lot,
    job: &Job,
) -> Result<Option<Marked>, EvalFault>
    requires places { HasColumnPlaces job.now }
    ensures { MayGive result (over_in op job.now lot.now of.now) }
{
    job.rel.law_of_rules();
    match job.column_places.column_place(of) {
        None => Ok(None),
        Some(place) => {
            let rows = job.rel.rows().as_slice();
            let all = read_operands(alloc, place, rows, lot.rows.as_slice())?;
            Ok(Some(Marked {
                value: aggregated(alloc, op, all.values)?,
                marked: job.uncertain | all.marked,
            }))
        }
    }
}

#[tactic(auto, using(crate::proofs::ReadLots::counting))]
fn row_count(rows: &[Row], of_group: &[usize]) -> Value
    ensures { result ≡ Int (pos (length (rows_by rows.now of_group.now))) }
{
    let mut count: usize = 0;
    for at in of_group {
        if row_at(rows, *at).is_some() {
            count += 1;
        }
    }
    Value::Int(count as i64)
}

/// COUNT(*).
#[tactic(auto, using(crate::proofs::ReadLots::counted))]
fn count_all(lot: &Lot, job: &Job) -> Marked
    ensures { expr_in job.now lot.now CountAll ≡ Ok result }
{
    let rows = job.rel.rows().as_slice();
    Marked {
        value: row_count(rows, lot.rows.as_slice()),
        marked: job.uncertain,
    }
}

/// The value of an item that is a column of the key, COUNT(*) or an aggregate of a column.
#[tactic(auto, using(crate::proofs::ReadLots::reading))]
fn read_value(
    alloc: Global,
    expr: &Expr,
    row: &Bindings,
    lot: &Lot,
    job: &Job,
) -> Result<Option<Marked>, EvalFault>
    requires places { HasColumnPlaces job.now }
    requires row { row.now ≡ key_bindings job.now lot.now }
    ensures { MayGive result (expr_in job.now lot.now expr.now) }
{
    match expr {
        Expr::Column { .. } => Ok(Some(eval(alloc, expr, row, job.picks, job.cell)?)),
        Expr::CountAll => Ok(Some(count_all(lot, job))),
        Expr::Count(of) => over_column(alloc, Aggregate::Count, of.get(), lot, job),
        Expr::Sum(of) => over_column(alloc, Aggregate::Sum, of.get(), lot, job),
        Expr::Min(of) => over_column(alloc, Aggregate::Min, of.get(), lot, job),
        Expr::Max(of) => over_column(alloc, Aggregate::Max, of.get(), lot, job),
        _ => Ok(None),
    }
}

/// The values of the items of a group, or none where one of them needs the rows bound. The columns of the key are bound in `row`.
#[tactic(auto, using(relations::proofs::Collecting::collecting))]
pub fn read_values(
    alloc: Global,
    items: &[Item],
    row: &Bindings,
    lot: &Lot,
    job: &Job,
) -> Result<Option<MarkedValues>, EvalFault>
    requires places { HasColumnPlaces job.now }
    requires row { row.now ≡ key_bindings job.now lot.now }
    ensures { MayGive result (calls.values_in job.now items.now (bound_in job.now lot.now)) }
{
    let mut values = MarkedValues::new(alloc)?;
    for item in items {
        match read_value(alloc, &item.expr, row, lot, job)? {
            None => return Ok(None),
            Some(value) => values.push(alloc, value)?,
        }
    }
    Ok(Some(values))
}
