//! The operators that actions make.
ghost use Rattle.std.specs.Prelude.{◌≡◌};
ghost use Rattle.expr_parse.specs.Operators as spec;

use expr_lang::{BinaryOp, UnaryOp};
use notebook_grammar::ExprAction;

/// An operator: of one operand, of two, or a test that may be negated.
#[derive(Clone, Copy)]
pub(crate) enum Operator {
    Unary(UnaryOp),
    Binary(BinaryOp),
    IsNull { negated: bool },
    Like { negated: bool },
    OneOf { negated: bool },
}

/// The operator that an action makes; none where it makes something else.
pub(crate) fn operator_of(action: ExprAction) -> Option<Operator>
    ensures { result ≡ spec.operator_of action }
{
    match action {
        ExprAction::Or => Some(Operator::Binary(BinaryOp::Or)),
        ExprAction::And => Some(Operator::Binary(BinaryOp::And)),
        ExprAction::Equal => Some(Operator::Binary(BinaryOp::Equal)),
        ExprAction::NotEqual => Some(Operator::Binary(BinaryOp::NotEqual)),
        ExprAction::Less => Some(Operator::Binary(BinaryOp::Less)),
        ExprAction::AtMost => Some(Operator::Binary(BinaryOp::AtMost)),
        ExprAction::Greater => Some(Operator::Binary(BinaryOp::Greater)),
        ExprAction::AtLeast => Some(Operator::Binary(BinaryOp::AtLeast)),
        ExprAction::Concat => Some(Operator::Binary(BinaryOp::Concat)),
        ExprAction::Add => Some(Operator::Binary(BinaryOp::Add)),
        ExprAction::Subtract => Some(Operator::Binary(BinaryOp::Subtract)),
        ExprAction::Multiply => Some(Operator::Binary(BinaryOp::Multiply)),
        ExprAction::Divide => Some(Operator::Binary(BinaryOp::Divide)),
        ExprAction::Remainder => Some(Operator::Binary(BinaryOp::Remainder)),
        ExprAction::Not => Some(Operator::Unary(UnaryOp::Not)),
        ExprAction::Minus => Some(Operator::Unary(UnaryOp::Minus)),
        ExprAction::Length => Some(Operator::Unary(UnaryOp::Length)),
        ExprAction::Trim => Some(Operator::Unary(UnaryOp::Trim)),
        ExprAction::Abs => Some(Operator::Unary(UnaryOp::Abs)),
        ExprAction::IsNull => Some(Operator::IsNull { negated: false }),
        ExprAction::IsNotNull => Some(Operator::IsNull { negated: true }),
        ExprAction::Like => Some(Operator::Like { negated: false }),
        ExprAction::NotLike => Some(Operator::Like { negated: true }),
        ExprAction::In => Some(Operator::OneOf { negated: false }),
        ExprAction::NotIn => Some(Operator::OneOf { negated: true }),
        _ => None,
    }
}
