//! Conditions, and the rows for which they are TRUE.
ghost use Rattle.std.specs.Prelude.{◌≡◌, OnOk};
ghost use Rattle.cell_errors.specs.Answers.{Gives};
ghost use Rattle.expr_meaning.specs.Meaning.{marked_over_row};
ghost use Rattle.relations.specs.Batches.{both};
ghost use Rattle.relations.specs.Conditions.{test_of, kept};

use crate::batch::Batch;
use cell_errors::EvalFault;
use dataset_types::{Picks, Row};
use expr_lang::Expr;
use expr_meaning::{Bindings, eval};
use expr_ops::is_true;
use std::alloc::Global;
use value_types::NoMemory;

/// Whether a condition is TRUE, and whether its value has a caveat.
#[derive(Clone, Copy)]
pub struct Test {
    pub holds: bool,
    pub marked: bool,
}

/// A condition over a row.
///
/// - Error: the first of its evaluation, or `TypeFault` where its value is neither a Bool nor NULL.
pub fn test_row(
    alloc: Global,
    condition: &Expr,
    row: &Bindings,
    picks: &Picks,
    cell: u32,
) -> Result<Test, EvalFault>
    ensures { Gives result (test_of (marked_over_row row.now picks.now cell condition.now)) }
{
    let value = eval(alloc, condition, row, picks, cell)?;
    Ok(Test {
        holds: is_true(&value.value)?,
        marked: value.marked,
    })
}

impl Batch {
    /// The row put after its own where the test holds, unsure where that is marked.
    pub fn keep(&mut self, alloc: Global, row: Row, test: Test) -> Result<(), NoMemory>
        ensures { OnOk result (self.new ≡ both self.old (kept row test)) }
    {
        let row = Row {
            sure: row.sure & !test.marked,
            ..row
        };
        if test.holds {
            self.rows.push(alloc, row)?;
        }
        self.marked |= test.marked;
        Ok(())
    }
}
