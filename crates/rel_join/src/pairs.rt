//! The pairs of a left row.
//!
//! The left row is bound once, and the values of one right row after another are put behind it and cut off again. Where ON compares
//! two columns no row is bound.
ghost use Rattle.std.specs.Prelude.{◌≡◌, ◌++◌, IfOk, OnOk, take, slice_get, Some};
ghost use Rattle.std.specs.Option.{option_copied};
ghost use Rattle.cell_errors.specs.Answers.{Gives};
ghost use Rattle.relations.specs.Conditions.{kept};
ghost use Rattle.rel_join.specs.Join.{paired};
ghost use Rattle.rel_join.specs.Few.{few_of, both_few};
ghost use Rattle.rel_join.specs.Jobs.{HasPlaces, ComparesOn, job_test, job_on, job_pairs};

use crate::equality::{Equality, test_equal};
use crate::few::Few;
use crate::kind::Kind;
use cell_errors::EvalFault;
use dataset_types::{Marked, Picks, Row};
use expr_lang::Expr;
use expr_meaning::Bindings;
use relations::{Rel, Test, bind, bind_more, test_row};
use sqlite_items::Boxed;
use std::alloc::Global;
use std::mem;
use value_types::{NoMemory, RowId};

/// What is the same for all pairs of a join.
#[derive(Clone, Copy)]
pub struct Job<'a> {
    pub kind: Kind,
    pub left: &'a Rel,
    pub right: &'a Rel,
    pub on: &'a Expr,
    /// None where ON isn't known to compare two columns.
    pub equality: Option<Equality>,
    pub picks: &'a Picks,
    pub cell: u32,
}

fn pair(alloc: Global, left: &Row, right: &Row) -> Result<Row, NoMemory>
    ensures { IfOk result (λ r. r ≡ paired left.now right.now) }
{
    let mut values = left.values.copy(alloc)?;
    values.append(alloc, right.values.copy(alloc)?)?;
    let left_id = Boxed::new(alloc, left.id.copy(alloc)?)?;
    let right_id = Boxed::new(alloc, right.id.copy(alloc)?)?;
    Ok(Row {
        id: RowId::Pair(left_id, right_id),
        sure: left.sure & right.sure,
        values,
    })
}

/// The pair put after those that were found, where the test holds. No row is made where it doesn't, or where pairs aren't few.
fn keep_pair(
    alloc: Global,
    found: &mut Few,
    left: &Row,
    right: &Row,
    test: Test,
) -> Result<(), NoMemory>
    ensures { OnOk result (found.new
        ≡ both_few found.old (Some (kept (paired left.now right.now) test))) }
{
    if !test.holds {
        found.mark(test.marked);
    } else if found.batch().is_some() {
        found.push(alloc, pair(alloc, left, right)?, test.marked)?;
    }
    Ok(())
}

/// The first of the bindings, so many as are counted.
fn cut(alloc: Global, row: &mut Bindings, count: usize) -> Result<(), NoMemory>
    ensures { OnOk result (row.new ≡ take count row.old) }
{
    let mut items = mem::replace(row, Bindings::new(alloc)?).into_vec();
    if count < items.len() {
        items.truncate(count);
    }
    *row = Bindings::from_vec(alloc, items)?;
    Ok(())
}

/// ON over a left row, which is bound, and a right one.
fn test_pair(alloc: Global, job: &Job, left: &mut Bindings, right: &Row) -> Result<Test, EvalFault>
    ensures value { Gives result (job_test job.now left.old right.now) }
    ensures same { OnOk result (left.new ≡ left.old) }
{
    let count = left.len();
    let columns = job.right.columns().as_slice();
    bind_more(alloc, left, columns, right.values.as_slice())?;
    let test = test_row(alloc, job.on, left, job.picks, job.cell)?;
    cut(alloc, left, count)?;
    Ok(test)
}

#[tactic(auto, using(crate::proofs::PairLoop::pairing))]
fn bound_pairs(alloc: Global, job: &Job, left: &Row) -> Result<Few, EvalFault>
    ensures { Gives result (few_of (job_pairs job.now left.now)) }
{
    let mut bound = bind(alloc, job.left.columns().as_slice(), left.values.as_slice())?;
    let mut found = Few::new(alloc)?;
    for right in job.right.rows().as_slice() {
        let test = test_pair(alloc, job, &mut bound, right)?;
        keep_pair(alloc, &mut found, left, right, test)?;
    }
    found.law_of_few();
    Ok(found)
}

/// The value at a place among those of both rows, counted from 0.
#[tactic(auto, using(crate::proofs::ComparedPlaces::placing))]
fn value_at<'a>(left: &'a [Marked], right: &'a [Marked], place: usize) -> Option<&'a Marked>
    ensures { option_copied result ≡ slice_get (left.entry.now ++ right.entry.now) place }
{
    if place < left.len() {
        left.get(place)
    } else {
        right.get(place - left.len())
    }
}

/// ON over two rows, by the places of what it compares. A row that hasn't a value for each column is bound.
fn test_places(
    alloc: Global,
    job: &Job,
    at: Equality,
    left: &Row,
    right: &Row,
) -> Result<Test, EvalFault>
    requires { ComparesOn job.now at }
    ensures { Gives result (job_on job.now left.now right.now) }
{
    let lefts = left.values.as_slice();
    let rights = right.values.as_slice();
    if lefts.len() == job.left.columns().len() && rights.len() == job.right.columns().len() {
        if let Some(x) = value_at(lefts, rights, at.first) {
            if let Some(y) = value_at(lefts, rights, at.second) {
                return Ok(test_equal(x, y)?);
            }
        }
    }
    let mut bound = bind(alloc, job.left.columns().as_slice(), lefts)?;
    test_pair(alloc, job, &mut bound, right)
}

#[tactic(auto, using(crate::proofs::PairLoop::pairing))]
fn equal_pairs(alloc: Global, job: &Job, at: Equality, left: &Row) -> Result<Few, EvalFault>
    requires { ComparesOn job.now at }
    ensures { Gives result (few_of (job_pairs job.now left.now)) }
{
    let mut found = Few::new(alloc)?;
    for right in job.right.rows().as_slice() {
        let test = test_places(alloc, job, at, left, right)?;
        keep_pair(alloc, &mut found, left, right, test)?;
    }
    found.law_of_few();
    Ok(found)
}

/// The pairs of a left row, in the order of right rows, where they are few.
///
/// - Error: the first of an ON.
pub fn pairs(alloc: Global, job: &Job, left: &Row) -> Result<Few, EvalFault>
    requires { HasPlaces job.now }
    ensures { Gives result (few_of (job_pairs job.now left.now)) }
{
    match job.equality {
        None => bound_pairs(alloc, job, left),
        Some(at) => equal_pairs(alloc, job, at, left),
    }
}
