//! HAVING, looked at for all groups.
ghost use Rattle.std.specs.Prelude.{◌≡◌, IfOk, map};
ghost use Rattle.std.specs.Option.{option_copied};
ghost use Rattle.cell_errors.specs.Answers.{Gives, collect};
ghost use Rattle.rel_group.specs.Groups.{certain};
ghost use Rattle.rel_group.specs.Calls.{bound_in, condition_in, having_in, setting_in, tested_in};

use crate::binding::bound_lot;
use crate::job::Job;
use crate::keys::once;
use crate::parts::{Lot, Lots, TestedLot};
use cell_errors::EvalFault;
use dataset_types::{Marked, MarkedValues};
use expr_lang::Expr;
use expr_meaning::{Bindings, Setting, eval_in};
use expr_ops::is_true;
use relations::{Test, bind};
use std::alloc::Global;
use value_types::{ListOf, NoMemory, Values};

/// The values, none of them marked.
pub fn certain_values(alloc: Global, values: Values) -> Result<MarkedValues, NoMemory>
    ensures { IfOk result (λ ms. ms ≡ map certain values) }
{
    let mut all = MarkedValues::new(alloc)?;
    for value in values.into_vec() {
        all.push(
            alloc,
            Marked {
                value,
                marked: false,
            },
        )?;
    }
    Ok(all)
}

/// The columns of the key with the values of a group's key.
pub fn key_row(alloc: Global, job: &Job, lot: &Lot) -> Result<Bindings, NoMemory>
    ensures { IfOk result (λ row. row ≡ (setting_in job.now (bound_in job.now lot.now)).row) }
{
    let values = once(alloc, job.places, lot.key.as_slice())?;
    let values = certain_values(alloc, values)?;
    bind(alloc, job.columns.as_slice(), values.as_slice())
}

fn test_over(
    alloc: Global,
    condition: &Expr,
    lot: &Lot,
    rows: &[Bindings],
    job: &Job,
) -> Result<Test, EvalFault>
    requires { rows.now ≡ (bound_in job.now lot.now).rows }
    ensures { Gives result (condition_in job.now condition.now (bound_in job.now lot.now)) }
{
    let row = key_row(alloc, job, lot)?;
    let setting = Setting {
        row: &row,
        group: Some(rows),
        marked: job.uncertain,
        picks: job.picks,
        cell: job.cell,
    };
    let value = eval_in(alloc, condition, &setting)?;
    Ok(Test {
        holds: is_true(&value.value)?,
        marked: value.marked,
    })
}

fn test_in(alloc: Global, condition: &Expr, lot: &Lot, job: &Job) -> Result<Test, EvalFault>
    ensures { Gives result (condition_in job.now condition.now (bound_in job.now lot.now)) }
{
    let rows = bound_lot(alloc, job, lot)?;
    test_over(alloc, condition, lot, rows.as_slice(), job)
}

fn having_test(
    alloc: Global,
    having: Option<&Expr>,
    lot: &Lot,
    job: &Job,
) -> Result<Test, EvalFault>
    ensures { Gives result
        (having_in job.now (option_copied having.entry) (bound_in job.now lot.now)) }
{
    match having {
        None => Ok(Test {
            holds: true,
            marked: false,
        }),
        Some(condition) => test_in(alloc, condition, lot, job),
    }
}

fn tested(alloc: Global, having: Option<&Expr>, lot: Lot, job: &Job) -> Result<TestedLot, EvalFault>
    ensures { Gives result (tested_in job.now (option_copied having.entry) lot) }
{
    let test = having_test(alloc, having, &lot, job)?;
    Ok(TestedLot { lot, test })
}

/// Each lot with what HAVING says of it, or the first error.
#[tactic(auto, using(relations::proofs::Collecting::collecting))]
pub fn all_tested(
    alloc: Global,
    having: Option<&Expr>,
    lots: Lots,
    job: &Job,
) -> Result<ListOf<TestedLot>, EvalFault>
    ensures { Gives result (collect (tested_in job.now (option_copied having.entry)) lots) }
{
    let mut all = ListOf::new(alloc)?;
    for lot in lots.into_vec() {
        let one = tested(alloc, having, lot, job)?;
        all.push(alloc, one)?;
    }
    Ok(all)
}
