//! JOIN and LEFT JOIN.
ghost use Rattle.std.specs.Prelude.{◌≡◌, ◌++◌, IfOk};
ghost use Rattle.cell_errors.specs.Answers.{Gives, and_then};
ghost use Rattle.rel_join.specs.Join.{few_pairs, joined};
ghost use Rattle.rel_join.specs.Few.{few_of};
ghost use Rattle.rel_join.specs.Jobs.{HasPlaces, job_row, job_rows, job_joined, few_joined};
ghost use Rattle.rel_join.specs.Rules.{AreApart};
ghost use Rattle.rel_join.specs.declared.kind.Kind.TheVariants as kind;

use crate::equality::equality_of;
use crate::few::Few;
use crate::kind::Kind;
use crate::lone::finish;
use crate::pairs::{Job, pairs};
use cell_errors::{CellError, EvalFault};
use dataset_types::{Picks, Row};
use expr_lang::Expr;
use expr_meaning::Scope;
use relations::Rel;
use std::alloc::Global;
use value_types::NoMemory;

/// All that a join makes of one left row, where that is few.
#[tactic(auto, using(crate::proofs::LoneRows::few_row))]
fn left_row(alloc: Global, job: &Job, row: &Row) -> Result<Few, EvalFault>
    requires { HasPlaces job.now }
    ensures { Gives result (few_of (job_row job.now row.now)) }
{
    let found = pairs(alloc, job, row)?;
    let width = job.right.columns().len();
    let is_open = job.right.is_open();
    Ok(finish(alloc, job.kind, width, is_open, row, found)?)
}

/// What a join makes of each left row, in order, where all is few.
#[tactic(auto, using(crate::proofs::FewRows::few))]
fn left_rows(alloc: Global, job: &Job) -> Result<Few, EvalFault>
    requires { HasPlaces job.now }
    ensures { Gives result (job_rows job.now) }
{
    let mut all = Few::new(alloc)?;
    for row in job.left.rows().as_slice() {
        let made = left_row(alloc, job, row)?;
        all.add(alloc, made)?;
    }
    all.law_of_few();
    Ok(all)
}

/// At most 16,000,000 pairs are looked at.
pub(crate) fn allow(left: usize, right: usize) -> Result<(), CellError>
    ensures { result ≡ few_pairs left right }
{
    if left as u128 * right as u128 <= 16_000_000 {
        Ok(())
    } else {
        Err(CellError::TooLarge)
    }
}

fn all_columns(alloc: Global, a: &Rel, b: &Rel) -> Result<Scope, NoMemory>
    ensures { IfOk result (λ columns. columns ≡ a.now.columns ++ b.now.columns) }
{
    let mut columns = a.columns().copy(alloc)?;
    columns.append(alloc, b.columns().copy(alloc)?)?;
    Ok(columns)
}

fn join_few(alloc: Global, columns: Scope, job: &Job) -> Result<Rel, EvalFault>
    requires columns { columns ≡ job.now.left.now.columns ++ job.now.right.now.columns }
    requires places { HasPlaces job.now }
    requires apart { AreApart job.now.left.now.columns job.now.right.now.columns }
    ensures { Gives result
        (and_then (job_rows job.now) (few_joined job.now.left.now job.now.right.now)) }
{
    let left = job.left;
    let right = job.right;
    left.law_of_rules();
    right.law_of_rules();
    let all = left_rows(alloc, job)?;
    let made = all.into_batch().ok_or(CellError::TooLarge)?;
    let is_open = left.is_open() | right.is_open() | made.marked;
    let is_loose = left.is_loose() | right.is_loose();
    Rel::new(alloc, columns, made.rows, is_open, is_loose)
}

/// The whole join. Whether its ON compares two columns is looked for here, whatever the job says.
#[tactic(auto, using(crate::proofs::FewRows::few_are_all))]
fn join_any(alloc: Global, job: &Job) -> Result<Rel, EvalFault>
    requires apart { AreApart job.now.left.now.columns job.now.right.now.columns }
    ensures { Gives result (job_joined job.now) }
{
    allow(job.left.rows().len(), job.right.rows().len())?;
    let columns = all_columns(alloc, job.left, job.right)?;
    let equality = equality_of(alloc, columns.as_slice(), job.on)?;
    join_few(alloc, columns, &Job { equality, ..*job })
}

/// JOIN: the pairs of rows for which ON is TRUE, in the order of left rows and for each in that of right rows.
///
/// - Shape: the columns of the left side, then those of the right; no column stands on both.
/// - Marks: a pair is sure where both rows are and its ON is unmarked; a marked ON of any pair opens.
/// - Error: `TooLarge` where there are more than 16,000,000 pairs; then the first error of an ON, in the order of pairs;
///   `TypeFault` where it is neither a Bool nor NULL; then `TooLarge` where the whole result passes a limit.
/// - Source: docs/SELECT.md.
pub fn join(
    alloc: Global,
    a: &Rel,
    b: &Rel,
    on: &Expr,
    picks: &Picks,
    cell: u32,
) -> Result<Rel, EvalFault>
    requires apart { AreApart a.now.columns b.now.columns }
    ensures { Gives result (joined kind.Inner a.now b.now on.now picks.now cell) }
{
    let job = Job {
        kind: Kind::Inner,
        left: a,
        right: b,
        on,
        equality: None,
        picks,
        cell,
    };
    join_any(alloc, &job)
}

/// LEFT JOIN: as JOIN, and each left row without a pair in its place, with NULL in the columns of the right side.
///
/// - Marks: as JOIN; a row without a pair is sure where it was, the right side is closed and no ON of it is marked.
/// - Error: as JOIN.
/// - Source: docs/SELECT.md.
pub fn left_join(
    alloc: Global,
    a: &Rel,
    b: &Rel,
    on: &Expr,
    picks: &Picks,
    cell: u32,
) -> Result<Rel, EvalFault>
    requires apart { AreApart a.now.columns b.now.columns }
    ensures { Gives result (joined kind.Outer a.now b.now on.now picks.now cell) }
{
    let job = Job {
        kind: Kind::Outer,
        left: a,
        right: b,
        on,
        equality: None,
        picks,
        cell,
    };
    join_any(alloc, &job)
}
