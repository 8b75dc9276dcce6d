//! The items over groups.
ghost use Rattle.std.specs.Prelude.{◌≡◌, IfOk};
ghost use Rattle.cell_errors.specs.Answers.{Gives};
ghost use Rattle.relations.specs.Batches.{gathered};
ghost use Rattle.relations.specs.Conditions.{kept};
ghost use Rattle.rel_ops.specs.Project.{no_error};
ghost use Rattle.rel_group.specs.Calls as calls;
ghost use Rattle.rel_group.specs.Calls.{HasColumnPlaces, bound_in, item_in, items_in, key_bindings, lot_row};

use crate::binding::bound_lot;
use crate::having::key_row;
use crate::job::Job;
use crate::parts::{Lot, TestedLot};
use crate::reading::read_values;
use cell_errors::EvalFault;
use dataset_types::{Marked, MarkedValues, Row, Rows};
use expr_meaning::{Bindings, Setting, eval_in};
use relations::{Batch, Item, Test};
use std::alloc::Global;
use value_types::{NoMemory, RowId};

fn group_value(alloc: Global, item: &Item, setting: &Setting) -> Result<Marked, EvalFault>
    ensures { Gives result (item_in setting.now item.now) }
{
    let value = eval_in(alloc, &item.expr, setting)?;
    Ok(value)
}

#[tactic(auto, using(relations::proofs::Collecting::collecting))]
fn group_values(alloc: Global, items: &[Item], setting: &Setting) -> Result<MarkedValues, EvalFault>
    ensures { Gives result (items_in setting.now items.now) }
{
    let mut values = MarkedValues::new(alloc)?;
    for item in items {
        let value = group_value(alloc, item, setting)?;
        values.push(alloc, value)?;
    }
    Ok(values)
}

fn values_over(
    alloc: Global,
    items: &[Item],
    row: &Bindings,
    rows: &[Bindings],
    job: &Job,
    lot: &Lot,
) -> Result<MarkedValues, EvalFault>
    requires row { row.now ≡ key_bindings job.now lot.now }
    requires rows { rows.now ≡ (bound_in job.now lot.now).rows }
    ensures { Gives result (calls.values_in job.now items.now (bound_in job.now lot.now)) }
{
    let setting = Setting {
        row,
        group: Some(rows),
        marked: job.uncertain,
        picks: job.picks,
        cell: job.cell,
    };
    group_values(alloc, items, &setting)
}

/// The values of the items. The rows of the lot are bound only where an item can't be read without.
fn values_in(alloc: Global, items: &[Item], lot: &Lot, job: &Job) -> Result<MarkedValues, EvalFault>
    requires places { HasColumnPlaces job.now }
    ensures { Gives result (calls.values_in job.now items.now (bound_in job.now lot.now)) }
{
    let row = key_row(alloc, job, lot)?;
    match read_values(alloc, items, &row, lot, job)? {
        Some(values) => Ok(values),
        None => {
            let rows = bound_lot(alloc, job, lot)?;
            values_over(alloc, items, &row, rows.as_slice(), job, lot)
        }
    }
}

fn kept_row(alloc: Global, lot: &Lot, values: MarkedValues, test: Test) -> Result<Batch, NoMemory>
    ensures { IfOk result (λ b. b ≡ kept (lot_row lot.now values) test) }
{
    let id = RowId::Key(lot.key.copy(alloc)?);
    let row = Row {
        id,
        sure: lot.sure,
        values,
    };
    let mut all = Batch::new(alloc)?;
    all.keep(alloc, row, test)?;
    Ok(all)
}

/// The row of a group that HAVING keeps.
fn group_row(
    alloc: Global,
    items: &[Item],
    tested: &TestedLot,
    job: &Job,
) -> Result<Batch, EvalFault>
    requires places { HasColumnPlaces job.now }
    ensures { Gives result (calls.row_in job.now items.now tested.now) }
{
    if !tested.test.holds {
        let rows = Rows::new(alloc)?;
        return Ok(Batch {
            rows,
            marked: tested.test.marked,
        });
    }
    let values = values_in(alloc, items, &tested.lot, job)?;
    Ok(kept_row(alloc, &tested.lot, values, tested.test)?)
}

/// The rows of the groups that HAVING keeps.
#[tactic(auto, using(relations::proofs::Loops::gathering))]
pub fn all_rows(
    alloc: Global,
    items: &[Item],
    lots: &[TestedLot],
    job: &Job,
) -> Result<Batch, EvalFault>
    requires places { HasColumnPlaces job.now }
    ensures { Gives result (gathered (calls.row_in job.now items.now) lots.now) }
{
    let mut all = Batch::new(alloc)?;
    for lot in lots {
        let made = group_row(alloc, items, lot, job)?;
        all.add(alloc, made)?;
    }
    Ok(all)
}

/// The items of the groups that HAVING keeps, for their errors alone.
#[tactic(auto, using(rel_ops::proofs::TooMany::looking))]
pub fn check_rows(
    alloc: Global,
    items: &[Item],
    lots: &[TestedLot],
    job: &Job,
) -> Result<(), EvalFault>
    requires places { HasColumnPlaces job.now }
    ensures { Gives result (no_error (gathered (calls.row_in job.now items.now) lots.now)) }
{
    for lot in lots {
        group_row(alloc, items, lot, job)?;
    }
    Ok(())
}

/// How many groups HAVING keeps.
pub fn kept_count(lots: &[TestedLot]) -> usize
    ensures { result ≡ calls.kept_count lots.now }
{
    lots.iter().filter(|lot| lot.test.holds).count()
}
