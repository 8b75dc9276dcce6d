//! Whether an expression has an aggregate.
ghost use Rattle.std.specs.Prelude.{◌≡◌, map, option_map};
ghost use Rattle.std.specs.List.{list_any};
ghost use Rattle.sql_plan.specs.Aggregates as spec;

use expr_lang::{Arm, Expr};
use sqlite_items::Boxed;

/// Whether an expression is an aggregate, or has one in it.
#[cycle(aggregates)]
#[tactic(auto, using(crate::proofs::Aggregating::aggregating))]
pub(crate) fn has_aggregate(expr: &Expr) -> bool
    ensures { result ≡ spec.has_aggregate expr.now }
{
    match expr {
        Expr::Literal(_) | Expr::Column { .. } => false,
        Expr::Unary(_, of) => has_aggregate(of.get()),
        Expr::Binary(_, a, b) => has_aggregate(a.get()) || has_aggregate(b.get()),
        Expr::IsNull { of, .. } => has_aggregate(of.get()),
        Expr::Like { of, pattern, .. } => has_aggregate(of.get()) || has_aggregate(pattern.get()),
        Expr::OneOf { of, list, .. } => has_aggregate(of.get()) || any_has(list.as_slice()),
        Expr::Case { arms, otherwise } => any_arm_has(arms.as_slice()) || other_has(otherwise),
        Expr::Coalesce(list) => any_has(list.as_slice()),
        Expr::Cast { of, .. } => has_aggregate(of.get()),
        Expr::Caveat { of, .. } => has_aggregate(of.get()),
        Expr::CountAll | Expr::Count(_) | Expr::Sum(_) | Expr::Min(_) | Expr::Max(_) => true,
    }
}

#[cycle(aggregates)]
#[tactic(auto, using(crate::proofs::Aggregating::aggregating))]
fn any_has(list: &[Expr]) -> bool
    ensures { result ≡ list_any spec.has_aggregate list.now }
{
    for item in list {
        if has_aggregate(item) {
            return true;
        }
    }
    false
}

#[cycle(aggregates)]
#[tactic(auto, using(crate::proofs::Aggregating::aggregating))]
fn any_arm_has(arms: &[Arm]) -> bool
    ensures { result ≡ list_any spec.arm_has arms.now }
{
    for arm in arms {
        if has_aggregate(&arm.condition) || has_aggregate(&arm.answer) {
            return true;
        }
    }
    false
}

#[cycle(aggregates)]
#[tactic(auto, using(crate::proofs::Aggregating::aggregating))]
fn other_has(otherwise: &Option<Boxed<Expr>>) -> bool
    ensures { result ≡ spec.if_there (option_map spec.has_aggregate otherwise.now) }
{
    match otherwise {
        None => false,
        Some(other) => has_aggregate(other.get()),
    }
}
