//! The evaluator of operators of two operands.
//!
//! An operator leaves its value in the place of its left operand: operators within operators hand on one place, so
//! that their values aren't moved from call to call.
ghost use Rattle.expr_meaning.specs.Calls.{gives, operator_gives, rest_gives};
ghost use Rattle.expr_meaning.specs.Sees.{Leaves, Sees};
ghost use Rattle.expr_meaning.specs.Steps.{beside_marked};

use crate::evaluate::eval_in;
use crate::marked::{beside, put_found, put_literal};
use crate::named::meant;
use crate::setting::Setting;
use cell_errors::EvalFault;
use dataset_types::Marked;
use expr_lang::{BinaryOp, Expr};
use expr_ops::decides;
use std::alloc::Global;
use value_types::Value;

/// An operator, which looks at the right operand only where the left one doesn't decide.
#[cycle(eval)]
#[tactic(auto, using(crate::proofs::Readings::readings))]
#[inline(never)]
pub(crate) fn applied(
    alloc: Global,
    op: BinaryOp,
    left: &Expr,
    right: &Expr,
    setting: &Setting,
) -> Result<Marked, EvalFault>
    ensures { Sees result (operator_gives op setting.now left.now right.now) }
{
    let mut out = Marked {
        value: Value::Null,
        marked: false,
    };
    apply(alloc, op, left, right, setting, &mut out)?;
    Ok(out)
}

/// The value of an expression, put in a place.
#[cycle(eval)]
#[tactic(auto, using(crate::proofs::Readings::readings))]
#[inline(always)]
fn put(alloc: Global, expr: &Expr, setting: &Setting, out: &mut Marked) -> Result<(), EvalFault>
    ensures { Leaves result out.new (gives setting.now expr.now) }
{
    match expr {
        Expr::Literal(value) => put_literal(alloc, value, out)?,
        Expr::Column { qualifier, name } => put_found(alloc, setting.row, qualifier, name, out)?,
        Expr::Binary(op, left, right) => apply(alloc, *op, left.get(), right.get(), setting, out)?,
        _ => put_other(alloc, expr, setting, out)?,
    }
    Ok(())
}

/// The value of any expression, put in a place.
#[cycle(eval)]
#[tactic(auto, using(crate::proofs::Readings::readings))]
#[inline(never)]
fn put_other(
    alloc: Global,
    expr: &Expr,
    setting: &Setting,
    out: &mut Marked,
) -> Result<(), EvalFault>
    ensures { Leaves result out.new (gives setting.now expr.now) }
{
    *out = eval_in(alloc, expr, setting)?;
    Ok(())
}

/// An operator, whose value is put in a place.
#[cycle(eval)]
#[tactic(auto, using(crate::proofs::Readings::readings))]
fn apply(
    alloc: Global,
    op: BinaryOp,
    left: &Expr,
    right: &Expr,
    setting: &Setting,
    out: &mut Marked,
) -> Result<(), EvalFault>
    ensures { Leaves result out.new (operator_gives op setting.now left.now right.now) }
{
    put(alloc, left, setting, out)?;
    apply_rest(alloc, op, right, setting, out)?;
    Ok(())
}

/// An operator whose left operand stands in the place where its value is to be.
#[cycle(eval)]
#[tactic(auto, using(crate::proofs::Readings::readings))]
fn apply_rest(
    alloc: Global,
    op: BinaryOp,
    right: &Expr,
    setting: &Setting,
    out: &mut Marked,
) -> Result<(), EvalFault>
    ensures { Leaves result out.new (rest_gives op out.old setting.now right.now) }
{
    if decides(op, &out.value)? {
        return Ok(());
    }
    match right {
        // A literal or a name as the right operand is lent, not written again.
        Expr::Literal(value) => beside(alloc, op, value, false, out)?,
        Expr::Column { qualifier, name } => {
            let binding = meant(setting.row.as_slice(), qualifier, name)?;
            beside(alloc, op, &binding.value.value, binding.value.marked, out)?
        }
        _ => beside_nested(alloc, op, right, setting, out)?,
    }
    Ok(())
}

/// An operator whose left operand stands in `out` and didn't decide, on it and what the right one gives.
#[cycle(eval)]
#[tactic(auto, using(crate::proofs::Readings::readings))]
#[inline(never)]
fn beside_nested(
    alloc: Global,
    op: BinaryOp,
    right: &Expr,
    setting: &Setting,
    out: &mut Marked,
) -> Result<(), EvalFault>
    ensures { Leaves result out.new (beside_marked op out.old (gives setting.now right.now)) }
{
    let mut other = Marked {
        value: Value::Null,
        marked: false,
    };
    put(alloc, right, setting, &mut other)?;
    beside(alloc, op, &other.value, other.marked, out)?;
    Ok(())
}
