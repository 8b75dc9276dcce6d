//! The types of operators, from those of their operands.
ghost use Rattle.std.specs.Prelude.{◌≡◌};
ghost use Rattle.expr_meaning.specs.Types as spec;

use crate::expr_type::ExprType;
use cell_errors::CellError;
use expr_lang::{BinaryOp, UnaryOp};
use expr_ops::Aggregate;
use value_types::{ColumnType, Value};

const BOOL: ExprType = ExprType::Of(ColumnType::Bool);

pub(crate) fn type_of_value(value: &Value) -> ExprType
    ensures { result ≡ spec.type_of_value value.now }
{
    match value {
        Value::Null => ExprType::Null,
        Value::Bool(_) => ExprType::Of(ColumnType::Bool),
        Value::Int(_) => ExprType::Of(ColumnType::Int),
        Value::Fixed(_) => ExprType::Of(ColumnType::Fixed),
        Value::Text(_) => ExprType::Of(ColumnType::Text),
    }
}

/// The answer, where the operand is a Bool or NULL.
pub(crate) fn where_bool(answer: ExprType, operand: ExprType) -> Result<ExprType, CellError>
    ensures { result ≡ spec.where_bool answer operand }
{
    match operand {
        ExprType::Null | ExprType::Of(ColumnType::Bool) => Ok(answer),
        ExprType::Of(ColumnType::Int | ColumnType::Fixed | ColumnType::Text) => {
            Err(CellError::TypeFault)
        }
    }
}

/// The answer, where the operand is a Text or NULL.
fn where_text(answer: ExprType, operand: ExprType) -> Result<ExprType, CellError>
    ensures { result ≡ spec.where_text answer operand }
{
    match operand {
        ExprType::Null | ExprType::Of(ColumnType::Text) => Ok(answer),
        ExprType::Of(ColumnType::Bool | ColumnType::Int | ColumnType::Fixed) => {
            Err(CellError::TypeFault)
        }
    }
}

/// The answer, where the operand is an Int or NULL.
fn where_int(answer: ExprType, operand: ExprType) -> Result<ExprType, CellError>
    ensures { result ≡ spec.where_int answer operand }
{
    match operand {
        ExprType::Null | ExprType::Of(ColumnType::Int) => Ok(answer),
        ExprType::Of(ColumnType::Bool | ColumnType::Fixed | ColumnType::Text) => {
            Err(CellError::TypeFault)
        }
    }
}

fn number_type(operand: ExprType) -> Result<ExprType, CellError>
    ensures { result ≡ spec.number_type operand }
{
    match operand {
        ExprType::Null => Ok(ExprType::Null),
        ExprType::Of(ColumnType::Int) => Ok(ExprType::Of(ColumnType::Int)),
        ExprType::Of(ColumnType::Fixed) => Ok(ExprType::Of(ColumnType::Fixed)),
        ExprType::Of(ColumnType::Bool | ColumnType::Text) => Err(CellError::TypeFault),
    }
}

fn wider(a: ExprType, b: ExprType) -> ExprType
    ensures { result ≡ spec.wider a b }
{
    match (a, b) {
        (ExprType::Null, b) => b,
        (a, ExprType::Null) => a,
        (ExprType::Of(ColumnType::Fixed), ExprType::Of(_)) => ExprType::Of(ColumnType::Fixed),
        (ExprType::Of(_), b) => b,
    }
}

fn numbers_type(a: ExprType, b: ExprType) -> Result<ExprType, CellError>
    ensures { result ≡ spec.numbers_type a b }
{
    let a = number_type(a)?;
    let b = number_type(b)?;
    Ok(wider(a, b))
}

fn common(a: ExprType, b: ExprType) -> Result<ExprType, CellError>
    ensures { result ≡ spec.common a b }
{
    match (a, b) {
        (ExprType::Null, b) => Ok(b),
        (a, ExprType::Null) => Ok(a),
        (ExprType::Of(ColumnType::Bool), ExprType::Of(ColumnType::Bool))
        | (ExprType::Of(ColumnType::Int), ExprType::Of(ColumnType::Int))
        | (ExprType::Of(ColumnType::Fixed), ExprType::Of(ColumnType::Fixed))
        | (ExprType::Of(ColumnType::Text), ExprType::Of(ColumnType::Text)) => Ok(a),
        _ => Err(CellError::TypeFault),
    }
}

/// What one more agrees on with those before.
pub(crate) fn agree(
    sofar: Result<ExprType, CellError>,
    more: ExprType,
) -> Result<ExprType, CellError>
    ensures { result ≡ spec.agree sofar more }
{
    common(sofar?, more)
}

pub(crate) fn comparison_type(a: ExprType, b: ExprType) -> Result<ExprType, CellError>
    ensures { result ≡ spec.comparison_type a b }
{
    match (a, b) {
        (ExprType::Null, _)
        | (_, ExprType::Null)
        | (ExprType::Of(ColumnType::Bool), ExprType::Of(ColumnType::Bool))
        | (ExprType::Of(ColumnType::Int), ExprType::Of(ColumnType::Int))
        | (ExprType::Of(ColumnType::Int), ExprType::Of(ColumnType::Fixed))
        | (ExprType::Of(ColumnType::Fixed), ExprType::Of(ColumnType::Int))
        | (ExprType::Of(ColumnType::Fixed), ExprType::Of(ColumnType::Fixed))
        | (ExprType::Of(ColumnType::Text), ExprType::Of(ColumnType::Text)) => Ok(BOOL),
        _ => Err(CellError::TypeFault),
    }
}

pub(crate) fn unary_type(op: UnaryOp, operand: ExprType) -> Result<ExprType, CellError>
    ensures { result ≡ spec.unary_type op operand }
{
    match op {
        UnaryOp::Not => where_bool(BOOL, operand),
        UnaryOp::Minus | UnaryOp::Abs => number_type(operand),
        UnaryOp::Length => where_text(ExprType::Of(ColumnType::Int), operand),
        UnaryOp::Trim => where_text(ExprType::Of(ColumnType::Text), operand),
    }
}

/// AND and OR look at the left operand's type before the right one is typed.
pub(crate) fn left_type(op: BinaryOp, left: ExprType) -> Result<ExprType, CellError>
    ensures { result ≡ spec.left_type op left }
{
    match op {
        BinaryOp::Or | BinaryOp::And => where_bool(BOOL, left),
        BinaryOp::Equal
        | BinaryOp::NotEqual
        | BinaryOp::Less
        | BinaryOp::AtMost
        | BinaryOp::Greater
        | BinaryOp::AtLeast
        | BinaryOp::Concat
        | BinaryOp::Add
        | BinaryOp::Subtract
        | BinaryOp::Multiply
        | BinaryOp::Divide
        | BinaryOp::Remainder => Ok(left),
    }
}

fn remainder_type(a: ExprType, b: ExprType) -> Result<ExprType, CellError>
    ensures { result ≡ spec.remainder_type a b }
{
    where_int(ExprType::Of(ColumnType::Int), a)?;
    where_int(ExprType::Of(ColumnType::Int), b)
}

pub(crate) fn binary_type(
    op: BinaryOp,
    left: ExprType,
    right: ExprType,
) -> Result<ExprType, CellError>
    ensures { result ≡ spec.binary_type op left right }
{
    match op {
        BinaryOp::Or | BinaryOp::And => where_bool(BOOL, right),
        BinaryOp::Equal
        | BinaryOp::NotEqual
        | BinaryOp::Less
        | BinaryOp::AtMost
        | BinaryOp::Greater
        | BinaryOp::AtLeast => comparison_type(left, right),
        BinaryOp::Concat => Ok(ExprType::Of(ColumnType::Text)),
        BinaryOp::Add | BinaryOp::Subtract | BinaryOp::Multiply | BinaryOp::Divide => {
            numbers_type(left, right)
        }
        BinaryOp::Remainder => remainder_type(left, right),
    }
}

pub(crate) fn like_type(of: ExprType, pattern: ExprType) -> Result<ExprType, CellError>
    ensures { result ≡ spec.like_type of pattern }
{
    where_text(BOOL, of)?;
    where_text(BOOL, pattern)
}

pub(crate) fn cast_type(kind: ColumnType, operand: ExprType) -> Result<ExprType, CellError>
    ensures { result ≡ spec.cast_type kind operand }
{
    match (kind, operand) {
        (ColumnType::Bool, ExprType::Of(ColumnType::Int | ColumnType::Fixed))
        | (ColumnType::Int | ColumnType::Fixed, ExprType::Of(ColumnType::Bool)) => {
            Err(CellError::TypeFault)
        }
        _ => Ok(ExprType::Of(kind)),
    }
}

pub(crate) fn aggregate_type(op: Aggregate, operand: ExprType) -> Result<ExprType, CellError>
    ensures { result ≡ spec.aggregate_type op operand }
{
    match op {
        Aggregate::Count => Ok(ExprType::Of(ColumnType::Int)),
        Aggregate::Sum => number_type(operand),
        Aggregate::Min | Aggregate::Max => Ok(operand),
    }
}
