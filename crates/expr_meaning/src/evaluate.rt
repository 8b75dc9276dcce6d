//! The evaluator: a function for each form, but for the operators of two operands.
//!
//! None of them is inlined. A call pays at entry for the size of its locals, and `eval_in`, which is called for each
//! part of a tree, has none of its own.
ghost use Rattle.std.specs.Prelude.{Ok};
ghost use Rattle.expr_ops.specs.Casts as casts;
ghost use Rattle.expr_ops.specs.Ops as ops;
ghost use Rattle.expr_ops.specs.Truths as truths;
ghost use Rattle.expr_meaning.specs.Sees.{Sees, SeesAll, seen};
ghost use Rattle.expr_meaning.specs.Calls.{caveat_gives, case_gives, each_gives, each_row_gives, gives, in_gives};
ghost use Rattle.expr_meaning.specs.Calls.{like_gives, made_of, over_gives};
ghost use Rattle.expr_meaning.specs.Meaning.{marked_over_row};
ghost use Rattle.expr_meaning.specs.Steps.{equals_one, first_value_marked, or_equal_marked};

use crate::bindings::Bindings;
use crate::caveat::picked;
use crate::marked::{count_all, found, literal};
use crate::operators::applied;
use crate::setting::{Operands, Setting};
use cell_errors::{CellError, EvalFault};
use dataset_types::{Marked, Picks};
use expr_lang::{Arm, BinaryOp, Expr, UnaryOp};
use expr_ops::{
    Aggregate, aggregated, binary, cast, decides, equal, is_null, is_true, like, negated_if,
    null_test, unary,
};
use sqlite_items::Boxed;
use std::alloc::Global;
use value_types::{ColumnType, ListOf, Value};

/// The value of an expression over a row, marked where an operand that was looked at is marked.
///
/// - Shape: names stand for the bindings of `row`; no aggregate may stand in it.
/// - Error: `NoColumn`, `TypeFault`, `Overflow`, `ZeroDivisor`, `TooLarge` (a Text of `||` over 65,536 bytes) and
///   `BadCast`, each exactly where docs/EXPRESSIONS.md gives it, the first in the order of evaluation.
/// - Source: docs/EXPRESSIONS.md.
pub fn eval(
    alloc: Global,
    expr: &Expr,
    row: &Bindings,
    picks: &Picks,
    cell: u32,
) -> Result<Marked, EvalFault>
    ensures { Sees result (marked_over_row row.now picks.now cell expr.now) }
{
    let setting = Setting {
        row,
        group: None,
        marked: false,
        picks,
        cell,
    };
    eval_in(alloc, expr, &setting)
}

/// The value of an expression in its setting, marked where an operand that was looked at is marked.
///
/// - Shape: names stand for the bindings of the setting's row, and within an aggregate for those of each row of its
///   group; an aggregate over a group whose rows aren't certain is marked.
/// - Error: those of `eval`, in the order of evaluation; an aggregate is `TypeFault` where there is no group.
/// - Source: docs/EXPRESSIONS.md.
#[cycle(eval)]
#[tactic(auto, using(crate::proofs::Readings::readings))]
pub fn eval_in(alloc: Global, expr: &Expr, setting: &Setting) -> Result<Marked, EvalFault>
    ensures { Sees result (gives setting.now expr.now) }
{
    match expr {
        Expr::Literal(value) => literal(alloc, value),
        Expr::Column { qualifier, name } => found(alloc, setting.row, qualifier, name),
        Expr::Unary(op, of) => unary_of(alloc, *op, of.get(), setting),
        Expr::Binary(op, left, right) => applied(alloc, *op, left.get(), right.get(), setting),
        Expr::IsNull { of, negated } => null_test_of(alloc, of.get(), *negated, setting),
        Expr::Like {
            of,
            pattern,
            negated,
        } => is_like(alloc, of.get(), pattern.get(), *negated, setting),
        Expr::OneOf { of, list, negated } => {
            one_of(alloc, list.as_slice(), of.get(), *negated, setting)
        }
        Expr::Case { arms, otherwise } => first_arm(alloc, arms.as_slice(), otherwise, setting),
        Expr::Coalesce(list) => first_value(alloc, list.as_slice(), setting),
        Expr::Cast { of, kind } => cast_of(alloc, of.get(), *kind, setting),
        Expr::Caveat { of, call, .. } => with_caveat(alloc, of.get(), *call, setting),
        Expr::CountAll => count_all(setting),
        Expr::Count(of) => over_group(alloc, Aggregate::Count, of.get(), setting),
        Expr::Sum(of) => over_group(alloc, Aggregate::Sum, of.get(), setting),
        Expr::Min(of) => over_group(alloc, Aggregate::Min, of.get(), setting),
        Expr::Max(of) => over_group(alloc, Aggregate::Max, of.get(), setting),
    }
}

/// An operator of one operand.
#[cycle(eval)]
#[tactic(auto, using(crate::proofs::Readings::readings))]
#[inline(never)]
fn unary_of(alloc: Global, op: UnaryOp, of: &Expr, setting: &Setting) -> Result<Marked, EvalFault>
    ensures { Sees result (made_of setting.now of.now (ops.unary_of op)) }
{
    let x = eval_in(alloc, of, setting)?;
    Ok(Marked {
        value: unary(alloc, op, &x.value)?,
        marked: x.marked,
    })
}

/// IS NULL, or IS NOT NULL.
#[cycle(eval)]
#[tactic(auto, using(crate::proofs::Readings::readings))]
#[inline(never)]
fn null_test_of(
    alloc: Global,
    of: &Expr,
    negated: bool,
    setting: &Setting,
) -> Result<Marked, EvalFault>
    ensures { Sees result (made_of setting.now of.now (λ v. Ok (truths.null_test negated v))) }
{
    let x = eval_in(alloc, of, setting)?;
    Ok(Marked {
        value: null_test(negated, &x.value),
        marked: x.marked,
    })
}

/// LIKE, or NOT LIKE.
#[cycle(eval)]
#[tactic(auto, using(crate::proofs::Readings::readings))]
#[inline(never)]
fn is_like(
    alloc: Global,
    of: &Expr,
    pattern: &Expr,
    negated: bool,
    setting: &Setting,
) -> Result<Marked, EvalFault>
    ensures { Sees result (like_gives setting.now of.now pattern.now negated) }
{
    let x = eval_in(alloc, of, setting)?;
    let y = eval_in(alloc, pattern, setting)?;
    let holds = like(alloc, &x.value, &y.value)?;
    Ok(Marked {
        value: negated_if(negated, holds)?,
        marked: x.marked || y.marked,
    })
}

/// CAST.
#[cycle(eval)]
#[tactic(auto, using(crate::proofs::Readings::readings))]
#[inline(never)]
fn cast_of(
    alloc: Global,
    of: &Expr,
    kind: ColumnType,
    setting: &Setting,
) -> Result<Marked, EvalFault>
    ensures { Sees result (made_of setting.now of.now (casts.cast kind)) }
{
    let x = eval_in(alloc, of, setting)?;
    Ok(Marked {
        value: cast(alloc, x.value, kind)?,
        marked: x.marked,
    })
}

/// CAVEAT, which marks the value that was looked at.
#[cycle(eval)]
#[tactic(auto, using(crate::proofs::Readings::readings))]
#[inline(never)]
fn with_caveat(alloc: Global, of: &Expr, call: u32, setting: &Setting) -> Result<Marked, EvalFault>
    ensures { Sees result (caveat_gives call setting.now of.now) }
{
    let x = eval_in(alloc, of, setting)?;
    Ok(Marked {
        value: picked(alloc, setting.picks, setting.cell, call, x.value)?,
        marked: true,
    })
}

/// IN, or NOT IN.
#[cycle(eval)]
#[tactic(auto, using(crate::proofs::Readings::readings))]
#[inline(never)]
fn one_of(
    alloc: Global,
    list: &[Expr],
    of: &Expr,
    negated: bool,
    setting: &Setting,
) -> Result<Marked, EvalFault>
    ensures { Sees result (in_gives setting.now of.now list.now negated) }
{
    let x = eval_in(alloc, of, setting)?;
    let holds = any_equal(alloc, &x.value, list, setting)?;
    Ok(Marked {
        value: negated_if(negated, holds.value)?,
        marked: x.marked || holds.marked,
    })
}

/// Whether the value equals one of the list, which are looked at until one does.
#[cycle(eval)]
#[tactic(auto, using(crate::proofs::Readings::readings))]
#[inline(never)]
fn any_equal(
    alloc: Global,
    value: &Value,
    list: &[Expr],
    setting: &Setting,
) -> Result<Marked, EvalFault>
    ensures { Sees result (equals_one value.now (each_gives setting.now list.now)) }
{
    let mut found = Marked {
        value: Value::Bool(false),
        marked: false,
    };
    for item in list {
        found = or_equal(alloc, found, value, item, setting)?;
    }
    Ok(found)
}

/// `found OR value = item`.
#[cycle(eval)]
#[tactic(auto, using(crate::proofs::Readings::readings))]
#[inline(never)]
fn or_equal(
    alloc: Global,
    found: Marked,
    value: &Value,
    item: &Expr,
    setting: &Setting,
) -> Result<Marked, EvalFault>
    ensures { Sees result (or_equal_marked (seen found) value.now (gives setting.now item.now)) }
{
    if decides(BinaryOp::Or, &found.value)? {
        return Ok(found);
    }
    let y = eval_in(alloc, item, setting)?;
    let holds = equal(value, &y.value)?;
    Ok(Marked {
        value: binary(alloc, BinaryOp::Or, found.value, &holds)?,
        marked: found.marked || y.marked,
    })
}

/// CASE: the answer of the first arm whose condition is TRUE, else the other.
#[cycle(eval)]
#[tactic(auto, using(crate::proofs::Readings::readings))]
#[inline(never)]
fn first_arm(
    alloc: Global,
    arms: &[Arm],
    otherwise: &Option<Boxed<Expr>>,
    setting: &Setting,
) -> Result<Marked, EvalFault>
    ensures { Sees result (case_gives setting.now arms.now otherwise.now) }
{
    let mut marked = false;
    for arm in arms {
        let test = eval_in(alloc, &arm.condition, setting)?;
        marked = marked || test.marked;
        if is_true(&test.value)? {
            let answer = eval_in(alloc, &arm.answer, setting)?;
            return Ok(Marked {
                value: answer.value,
                marked: marked || answer.marked,
            });
        }
    }
    match otherwise {
        None => Ok(Marked {
            value: Value::Null,
            marked,
        }),
        Some(other) => {
            let x = eval_in(alloc, other.get(), setting)?;
            Ok(Marked {
                value: x.value,
                marked: marked || x.marked,
            })
        }
    }
}

/// COALESCE: the first value that isn't NULL.
#[cycle(eval)]
#[tactic(auto, using(crate::proofs::Readings::readings))]
#[inline(never)]
fn first_value(alloc: Global, list: &[Expr], setting: &Setting) -> Result<Marked, EvalFault>
    ensures { Sees result (first_value_marked (each_gives setting.now list.now)) }
{
    let mut marked = false;
    for item in list {
        let x = eval_in(alloc, item, setting)?;
        marked = marked || x.marked;
        if !is_null(&x.value) {
            return Ok(Marked {
                value: x.value,
                marked,
            });
        }
    }
    Ok(Marked {
        value: Value::Null,
        marked,
    })
}

/// An aggregate over the rows of the group.
#[cycle(eval)]
#[tactic(auto, using(crate::proofs::Readings::readings), unfolding(crate::specs::Meaning::over_at))]
#[inline(never)]
fn over_group(
    alloc: Global,
    op: Aggregate,
    of: &Expr,
    setting: &Setting,
) -> Result<Marked, EvalFault>
    ensures { Sees result (over_gives op setting.now of.now) }
{
    match setting.group {
        None => Err(EvalFault::Error(CellError::TypeFault)),
        Some(rows) => {
            let operands = operands_over(alloc, of, rows, setting)?;
            Ok(Marked {
                value: aggregated(alloc, op, operands.values)?,
                marked: setting.marked || operands.marked,
            })
        }
    }
}

/// The values of an expression over each of the rows.
#[cycle(eval)]
#[tactic(auto, using(crate::proofs::Readings::readings))]
#[inline(never)]
fn operands_over(
    alloc: Global,
    of: &Expr,
    rows: &[Bindings],
    setting: &Setting,
) -> Result<Operands, EvalFault>
    ensures { SeesAll result (each_row_gives setting.now rows.now of.now) }
{
    let mut values = ListOf::new(alloc)?;
    let mut marked = false;
    for row in rows {
        let at_row = Setting {
            row,
            group: None,
            marked: false,
            picks: setting.picks,
            cell: setting.cell,
        };
        let value = eval_in(alloc, of, &at_row)?;
        marked |= value.marked;
        values.push(alloc, value.value)?;
    }
    Ok(Operands { values, marked })
}
