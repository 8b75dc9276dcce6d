//! What each action makes of the pieces.
ghost use Rattle.std.specs.Prelude.{◌≡◌, ◌∷◌, None, OnOk, IfOk};
ghost use Rattle.expr_parse.specs.Operators.{operated, operator_of};
ghost use Rattle.expr_parse.specs.Pieces as spec;
ghost use Rattle.expr_parse.specs.Tops.{Goes, TreeOn};

use crate::operator::{Operator, operator_of};
use crate::piece::Piece;
use crate::pieces::Pieces;
use crate::values::type_name;
use expr_lang::{Arm, BinaryOp, Expr, UnaryOp};
use notebook_grammar::ExprAction;
use sqlite_items::Boxed;
use std::alloc::Global;
use value_types::{ListOf, NoMemory, Value};

/// The expression on top, in a box.
fn pop_boxed<M: Drop>(alloc: Global, pieces: &mut Pieces<M>) -> Result<Boxed<Expr>, NoMemory>
    requires { TreeOn pieces.old }
    ensures { IfOk result (λ e. pieces.old ≡ Piece.Tree e ∷ pieces.new) }
{
    Ok(Boxed::new(alloc, pieces.pop_tree())?)
}

#[tactic(auto, using(crate::proofs::Tops::for_unary))]
fn unary<M: Drop>(alloc: Global, pieces: &mut Pieces<M>, op: UnaryOp) -> Result<(), NoMemory>
    requires { Goes (spec.unary op pieces.old) }
    ensures { OnOk result (spec.unary op pieces.old ≡ Some pieces.new) }
{
    let of = pop_boxed(alloc, pieces)?;
    pieces.push(Piece::Tree(Expr::Unary(op, of)))
}

#[tactic(auto, using(crate::proofs::Tops::for_binary))]
fn binary<M: Drop>(alloc: Global, pieces: &mut Pieces<M>, op: BinaryOp) -> Result<(), NoMemory>
    requires { Goes (spec.binary op pieces.old) }
    ensures { OnOk result (spec.binary op pieces.old ≡ Some pieces.new) }
{
    let right = pop_boxed(alloc, pieces)?;
    let left = pop_boxed(alloc, pieces)?;
    pieces.push(Piece::Tree(Expr::Binary(op, left, right)))
}

#[tactic(auto, using(crate::proofs::Tops::for_is_null))]
fn is_null<M: Drop>(alloc: Global, pieces: &mut Pieces<M>, negated: bool) -> Result<(), NoMemory>
    requires { Goes (spec.is_null negated pieces.old) }
    ensures { OnOk result (spec.is_null negated pieces.old ≡ Some pieces.new) }
{
    let of = pop_boxed(alloc, pieces)?;
    pieces.push(Piece::Tree(Expr::IsNull { of, negated }))
}

#[tactic(auto, using(crate::proofs::Tops::for_like))]
fn like<M: Drop>(alloc: Global, pieces: &mut Pieces<M>, negated: bool) -> Result<(), NoMemory>
    requires { Goes (spec.like negated pieces.old) }
    ensures { OnOk result (spec.like negated pieces.old ≡ Some pieces.new) }
{
    let pattern = pop_boxed(alloc, pieces)?;
    let of = pop_boxed(alloc, pieces)?;
    pieces.push(Piece::Tree(Expr::Like {
        of,
        pattern,
        negated,
    }))
}

#[tactic(auto, using(crate::proofs::Tops::for_one_of))]
fn one_of<M: Drop>(alloc: Global, pieces: &mut Pieces<M>, negated: bool) -> Result<(), NoMemory>
    requires { Goes (spec.one_of negated pieces.old) }
    ensures { OnOk result (spec.one_of negated pieces.old ≡ Some pieces.new) }
{
    let list = pieces.pop_list();
    let of = pop_boxed(alloc, pieces)?;
    pieces.push(Piece::Tree(Expr::OneOf { of, list, negated }))
}

#[tactic(auto, using(crate::proofs::Tops::for_type_as_name))]
fn type_as_name<M: Drop>(pieces: &mut Pieces<M>) -> Result<(), NoMemory>
    requires { Goes (spec.did ExprAction.TypeAsName pieces.old) }
    ensures { OnOk result (spec.did ExprAction.TypeAsName pieces.old ≡ Some pieces.new) }
{
    let kind = pieces.pop_type();
    pieces.push(Piece::Name(type_name(kind)))
}

fn literal<M: Drop>(pieces: &mut Pieces<M>, value: Value) -> Result<(), NoMemory>
    ensures { OnOk result (spec.tree (Expr.Literal value) pieces.old ≡ Some pieces.new) }
{
    pieces.push(Piece::Tree(Expr::Literal(value)))
}

#[tactic(auto, using(crate::proofs::Tops::for_coalesce))]
fn coalesce<M: Drop>(pieces: &mut Pieces<M>) -> Result<(), NoMemory>
    requires { Goes (spec.did ExprAction.Coalesce pieces.old) }
    ensures { OnOk result (spec.did ExprAction.Coalesce pieces.old ≡ Some pieces.new) }
{
    let list = pieces.pop_list();
    pieces.push(Piece::Tree(Expr::Coalesce(list)))
}

#[tactic(auto, using(crate::proofs::Tops::for_cast))]
fn cast<M: Drop>(alloc: Global, pieces: &mut Pieces<M>) -> Result<(), NoMemory>
    requires { Goes (spec.did ExprAction.Cast pieces.old) }
    ensures { OnOk result (spec.did ExprAction.Cast pieces.old ≡ Some pieces.new) }
{
    let kind = pieces.pop_type();
    let of = pop_boxed(alloc, pieces)?;
    pieces.push(Piece::Tree(Expr::Cast { of, kind }))
}

#[tactic(auto, using(crate::proofs::Tops::for_caveat))]
fn caveat<M: Drop>(alloc: Global, pieces: &mut Pieces<M>) -> Result<(), NoMemory>
    requires { Goes (spec.did ExprAction.Caveat pieces.old) }
    ensures { OnOk result (spec.did ExprAction.Caveat pieces.old ≡ Some pieces.new) }
{
    let message = pieces.pop_quoted();
    let of = pop_boxed(alloc, pieces)?;
    let call = pieces.pop_call();
    pieces.push(Piece::Tree(Expr::Caveat { of, message, call }))
}

#[tactic(auto, using(crate::proofs::Tops::for_qualified))]
fn qualified<M: Drop>(pieces: &mut Pieces<M>) -> Result<(), NoMemory>
    requires { Goes (spec.did ExprAction.Qualified pieces.old) }
    ensures { OnOk result (spec.did ExprAction.Qualified pieces.old ≡ Some pieces.new) }
{
    let name = pieces.pop_name();
    let qualifier = Some(pieces.pop_name());
    pieces.push(Piece::Tree(Expr::Column { qualifier, name }))
}

#[tactic(auto, using(crate::proofs::Tops::for_bare))]
fn bare<M: Drop>(pieces: &mut Pieces<M>) -> Result<(), NoMemory>
    requires { Goes (spec.did ExprAction.Bare pieces.old) }
    ensures { OnOk result (spec.did ExprAction.Bare pieces.old ≡ Some pieces.new) }
{
    let name = pieces.pop_name();
    pieces.push(Piece::Tree(Expr::Column {
        qualifier: None,
        name,
    }))
}

#[tactic(auto, using(crate::proofs::Tops::for_entry))]
fn entry<M: Drop>(alloc: Global, pieces: &mut Pieces<M>) -> Result<(), NoMemory>
    requires { Goes (spec.did ExprAction.Entry pieces.old) }
    ensures { OnOk result (spec.did ExprAction.Entry pieces.old ≡ Some pieces.new) }
{
    let expr = pieces.pop_tree();
    let mut list = pieces.pop_list();
    list.push(alloc, expr)?;
    pieces.push(Piece::List(list))
}

#[tactic(auto, using(crate::proofs::Tops::for_arm))]
fn arm<M: Drop>(alloc: Global, pieces: &mut Pieces<M>) -> Result<(), NoMemory>
    requires { Goes (spec.did ExprAction.Arm pieces.old) }
    ensures { OnOk result (spec.did ExprAction.Arm pieces.old ≡ Some pieces.new) }
{
    let answer = pieces.pop_tree();
    let condition = pieces.pop_tree();
    let mut arms = pieces.pop_arms();
    arms.push(alloc, Arm { condition, answer })?;
    pieces.push(Piece::Arms(arms))
}

#[tactic(auto, using(crate::proofs::Tops::for_case_else))]
fn case_else<M: Drop>(alloc: Global, pieces: &mut Pieces<M>) -> Result<(), NoMemory>
    requires { Goes (spec.did ExprAction.CaseElse pieces.old) }
    ensures { OnOk result (spec.did ExprAction.CaseElse pieces.old ≡ Some pieces.new) }
{
    let otherwise = Some(pop_boxed(alloc, pieces)?);
    let arms = pieces.pop_arms();
    pieces.push(Piece::Tree(Expr::Case { arms, otherwise }))
}

#[tactic(auto, using(crate::proofs::Tops::for_case))]
fn case<M: Drop>(pieces: &mut Pieces<M>) -> Result<(), NoMemory>
    requires { Goes (spec.did ExprAction.Case pieces.old) }
    ensures { OnOk result (spec.did ExprAction.Case pieces.old ≡ Some pieces.new) }
{
    let arms = pieces.pop_arms();
    pieces.push(Piece::Tree(Expr::Case {
        arms,
        otherwise: None,
    }))
}

#[tactic(auto, using(crate::proofs::Tops::for_whole))]
fn whole<M: Drop>(pieces: &mut Pieces<M>) -> Result<(), NoMemory>
    requires { Goes (spec.did ExprAction.Whole pieces.old) }
    ensures { OnOk result (spec.did ExprAction.Whole pieces.old ≡ Some pieces.new) }
{
    let n = pieces.pop_whole();
    literal(pieces, Value::Int(n))
}

#[tactic(auto, using(crate::proofs::Tops::for_decimal))]
fn decimal<M: Drop>(pieces: &mut Pieces<M>) -> Result<(), NoMemory>
    requires { Goes (spec.did ExprAction.Decimal pieces.old) }
    ensures { OnOk result (spec.did ExprAction.Decimal pieces.old ≡ Some pieces.new) }
{
    let n = pieces.pop_decimal();
    literal(pieces, Value::Fixed(n))
}

#[tactic(auto, using(crate::proofs::Tops::for_quoted))]
fn quoted<M: Drop>(pieces: &mut Pieces<M>) -> Result<(), NoMemory>
    requires { Goes (spec.did ExprAction.Quoted pieces.old) }
    ensures { OnOk result (spec.did ExprAction.Quoted pieces.old ≡ Some pieces.new) }
{
    let text = pieces.pop_quoted();
    literal(pieces, Value::Text(text))
}

#[tactic(auto, using(crate::proofs::Tops::for_sum))]
fn sum<M: Drop>(alloc: Global, pieces: &mut Pieces<M>) -> Result<(), NoMemory>
    requires { Goes (spec.did ExprAction.Sum pieces.old) }
    ensures { OnOk result (spec.did ExprAction.Sum pieces.old ≡ Some pieces.new) }
{
    let of = pop_boxed(alloc, pieces)?;
    pieces.push(Piece::Tree(Expr::Sum(of)))
}

#[tactic(auto, using(crate::proofs::Tops::for_min))]
fn min<M: Drop>(alloc: Global, pieces: &mut Pieces<M>) -> Result<(), NoMemory>
    requires { Goes (spec.did ExprAction.Min pieces.old) }
    ensures { OnOk result (spec.did ExprAction.Min pieces.old ≡ Some pieces.new) }
{
    let of = pop_boxed(alloc, pieces)?;
    pieces.push(Piece::Tree(Expr::Min(of)))
}

#[tactic(auto, using(crate::proofs::Tops::for_max))]
fn max<M: Drop>(alloc: Global, pieces: &mut Pieces<M>) -> Result<(), NoMemory>
    requires { Goes (spec.did ExprAction.Max pieces.old) }
    ensures { OnOk result (spec.did ExprAction.Max pieces.old ≡ Some pieces.new) }
{
    let of = pop_boxed(alloc, pieces)?;
    pieces.push(Piece::Tree(Expr::Max(of)))
}

#[tactic(auto, using(crate::proofs::Tops::for_count))]
fn count<M: Drop>(alloc: Global, pieces: &mut Pieces<M>) -> Result<(), NoMemory>
    requires { Goes (spec.did ExprAction.Count pieces.old) }
    ensures { OnOk result (spec.did ExprAction.Count pieces.old ≡ Some pieces.new) }
{
    let of = pop_boxed(alloc, pieces)?;
    pieces.push(Piece::Tree(Expr::Count(of)))
}

/// Makes an operator over the expressions on top.
fn operate<M: Drop>(alloc: Global, pieces: &mut Pieces<M>, op: Operator) -> Result<(), NoMemory>
    requires { Goes (operated op pieces.old) }
    ensures { OnOk result (operated op pieces.old ≡ Some pieces.new) }
{
    match op {
        Operator::Unary(op) => unary(alloc, pieces, op),
        Operator::Binary(op) => binary(alloc, pieces, op),
        Operator::IsNull { negated } => is_null(alloc, pieces, negated),
        Operator::Like { negated } => like(alloc, pieces, negated),
        Operator::OneOf { negated } => one_of(alloc, pieces, negated),
    }
}

/// Does one action that makes no operator.
fn act_on_form<M: Drop>(
    alloc: Global,
    pieces: &mut Pieces<M>,
    action: ExprAction,
) -> Result<(), NoMemory>
    requires goes { Goes (spec.did action pieces.old) }
    requires form { operator_of action ≡ None }
    ensures { OnOk result (spec.did action pieces.old ≡ Some pieces.new) }
{
    match action {
        ExprAction::Begin | ExprAction::End => Ok(()),
        ExprAction::TypeAsName => type_as_name(pieces),
        ExprAction::Whole => whole(pieces),
        ExprAction::Decimal => decimal(pieces),
        ExprAction::Quoted => quoted(pieces),
        ExprAction::True => literal(pieces, Value::Bool(true)),
        ExprAction::False => literal(pieces, Value::Bool(false)),
        ExprAction::Null => literal(pieces, Value::Null),
        ExprAction::BeginArms => pieces.push(Piece::Arms(ListOf::new(alloc)?)),
        ExprAction::Coalesce => coalesce(pieces),
        ExprAction::Cast => cast(alloc, pieces),
        ExprAction::Caveat => caveat(alloc, pieces),
        ExprAction::Sum => sum(alloc, pieces),
        ExprAction::Min => min(alloc, pieces),
        ExprAction::Max => max(alloc, pieces),
        ExprAction::Qualified => qualified(pieces),
        ExprAction::Bare => bare(pieces),
        ExprAction::BeginList => pieces.push(Piece::List(ListOf::new(alloc)?)),
        ExprAction::Entry => entry(alloc, pieces),
        ExprAction::Arm => arm(alloc, pieces),
        ExprAction::CaseElse => case_else(alloc, pieces),
        ExprAction::Case => case(pieces),
        ExprAction::CountAll => pieces.push(Piece::Tree(Expr::CountAll)),
        ExprAction::Count => count(alloc, pieces),
        _operator => unreachable!(),
    }
}

/// Does one action to the pieces.
#[tactic(auto, using(crate::proofs::Operating::operator_did))]
pub fn act_on<M: Drop>(
    alloc: Global,
    pieces: &mut Pieces<M>,
    action: ExprAction,
) -> Result<(), NoMemory>
    requires { Goes (spec.did action pieces.old) }
    ensures { OnOk result (spec.did action pieces.old ≡ Some pieces.new) }
{
    match operator_of(action) {
        Some(op) => operate(alloc, pieces, op),
        None => act_on_form(alloc, pieces, action),
    }
}
