//! Names that may stand once only.
//!
//! Two of one name stand beside each other once all are sorted, so many names are not compared two by two.
ghost use Rattle.std.specs.Prelude.{◌≡◌, map, IfOk, IsSorted};
ghost use Rattle.std.specs.Ordering.{nat_cmp};
ghost use Rattle.std.specs.Cmp.Lexicographic.{slice_cmp};
ghost use Rattle.cell_errors.specs.Answers.{Gives};
ghost use Rattle.sql_plan.specs.Names as spec;

use cell_errors::{CellError, EvalFault};
use std::alloc::Global;
use value_types::{Name, NoMemory};

/// The texts of names, in order.
fn texts_of<'a>(alloc: Global, names: &'a [Name]) -> Result<Vec<&'a str>, NoMemory>
    ensures { IfOk result (λ texts. map (λ t. t.now) texts.items ≡ names.entry.now) }
{
    let mut texts = Vec::new(alloc);
    for name in names {
        texts.push(name.as_text())?;
    }
    Ok(texts)
}

fn neighbours_differ(texts: &[&str]) -> bool
    requires { IsSorted (λ a b. slice_cmp nat_cmp a.now b.now) texts.now }
    ensures { result ≡ spec.are_distinct (map (λ t. t.now) texts.now) }
{
    for later in 1..texts.len() {
        if texts[later - 1] == texts[later] {
            return false;
        }
    }
    true
}

fn are_distinct(alloc: Global, names: &[Name]) -> Result<bool, NoMemory>
    ensures { IfOk result (λ b. b ≡ spec.are_distinct names.now) }
{
    let mut texts = texts_of(alloc, names)?;
    texts.sort_unstable();
    Ok(neighbours_differ(texts.as_slice()))
}

/// `NameTaken` where a name stands twice.
pub(crate) fn each_once(alloc: Global, names: &[Name]) -> Result<(), EvalFault>
    ensures { Gives result (spec.each_once names.now) }
{
    if are_distinct(alloc, names)? {
        Ok(())
    } else {
        Err(EvalFault::Error(CellError::NameTaken))
    }
}
