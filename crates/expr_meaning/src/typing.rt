//! Static types.
ghost use Rattle.std.specs.Prelude.{◌≡◌, Ok};
ghost use Rattle.std.specs.Option.{option_copied};
ghost use Rattle.cell_errors.specs.Answers.{Gives};
ghost use Rattle.expr_meaning.specs.Types as spec;
ghost use Rattle.expr_meaning.specs.declared.expr_type.ExprType.TheVariants as type;
ghost use Rattle.expr_meaning.specs.Calls.{case_type, each_typed, type_setting};

use crate::bindings::Scope;
use crate::expr_type::ExprType;
use crate::named::meant;
use crate::type_rules::{
    aggregate_type, agree, binary_type, cast_type, comparison_type, left_type, like_type,
    type_of_value, unary_type, where_bool,
};
use cell_errors::{CellError, EvalFault};
use expr_lang::{Arm, Expr};
use expr_ops::Aggregate;
use sqlite_items::Boxed;
use std::alloc::Global;
use value_types::{ColumnType, Name};

/// Where an expression is typed: over the columns of a row, and in a grouped query over those of its rows.
#[derive(Clone, Copy)]
pub struct TypedSetting<'a> {
    /// What names stand for outside of aggregates.
    pub columns: &'a Scope,
    /// None where the query isn't grouped; names in an aggregate stand for these columns.
    pub group: Option<&'a Scope>,
}

/// The static type of an expression over these columns.
///
/// - Error: `NoColumn` and `TypeFault`, each exactly where docs/EXPRESSIONS.md gives it, the first in the order
///   of evaluation. An aggregate is a `TypeFault`.
/// - Source: docs/EXPRESSIONS.md, "Static types".
pub fn type_of(_alloc: Global, expr: &Expr, scope: &Scope) -> Result<ExprType, EvalFault>
    ensures { Gives result (spec.type_over scope.now expr.now) }
{
    let setting = TypedSetting {
        columns: scope,
        group: None,
    };
    Ok(type_in(expr, &setting)?)
}

fn column_type(
    columns: &Scope,
    qualifier: &Option<Name>,
    name: &Name,
) -> Result<ExprType, CellError>
    ensures { result ≡ spec.column_type columns.now qualifier.now name.now }
{
    let column = meant(columns.as_slice(), qualifier, name)?;
    Ok(ExprType::Of(column.column.kind))
}

fn count_type(setting: &TypedSetting) -> Result<ExprType, CellError>
    ensures { result ≡ spec.count_typing (type_setting setting.now).group }
{
    match setting.group {
        None => Err(CellError::TypeFault),
        Some(_) => Ok(ExprType::Of(ColumnType::Int)),
    }
}

/// The static type of an expression in its setting.
///
/// - Shape: names stand for the columns of the setting, and within an aggregate for those of its group.
/// - Error: those of `type_of`, in the order of evaluation; an aggregate is `TypeFault` where there is no group.
/// - Source: docs/EXPRESSIONS.md, "Static types".
#[cycle(typing)]
#[tactic(auto, using(crate::proofs::Typings::typings))]
pub fn type_in(expr: &Expr, setting: &TypedSetting) -> Result<ExprType, CellError>
    ensures { result ≡ spec.type_at (type_setting setting.now) expr.now }
{
    match expr {
        Expr::Literal(value) => Ok(type_of_value(value)),
        Expr::Column { qualifier, name } => column_type(setting.columns, qualifier, name),
        Expr::Unary(op, of) => unary_type(*op, type_in(of.get(), setting)?),
        Expr::Binary(op, a, b) => {
            let left = type_in(a.get(), setting)?;
            left_type(*op, left)?;
            let right = type_in(b.get(), setting)?;
            binary_type(*op, left, right)
        }
        Expr::IsNull { of, .. } => {
            type_in(of.get(), setting)?;
            Ok(ExprType::Of(ColumnType::Bool))
        }
        Expr::Like { of, pattern, .. } => {
            let x = type_in(of.get(), setting)?;
            let y = type_in(pattern.get(), setting)?;
            like_type(x, y)
        }
        Expr::OneOf { of, list, .. } => {
            let x = type_in(of.get(), setting)?;
            type_list(x, list.as_slice(), setting)
        }
        Expr::Case { arms, otherwise } => type_case(arms.as_slice(), otherwise, setting),
        Expr::Coalesce(list) => type_all(list.as_slice(), setting),
        Expr::Cast { of, kind } => cast_type(*kind, type_in(of.get(), setting)?),
        Expr::Caveat { of, .. } => type_in(of.get(), setting),
        Expr::CountAll => count_type(setting),
        Expr::Count(of) => type_over(Aggregate::Count, of.get(), setting),
        Expr::Sum(of) => type_over(Aggregate::Sum, of.get(), setting),
        Expr::Min(of) => type_over(Aggregate::Min, of.get(), setting),
        Expr::Max(of) => type_over(Aggregate::Max, of.get(), setting),
    }
}

/// The conditions of a CASE are looked at as they are typed, its answers once all are typed.
#[cycle(typing)]
#[tactic(auto, using(crate::proofs::Typings::typings))]
fn type_case(
    arms: &[Arm],
    otherwise: &Option<Boxed<Expr>>,
    setting: &TypedSetting,
) -> Result<ExprType, CellError>
    ensures { result ≡ case_type setting.now (Ok type.Null) arms.now otherwise.now }
{
    let mut sofar = Ok(ExprType::Null);
    for arm in arms {
        let condition = type_in(&arm.condition, setting)?;
        where_bool(ExprType::Of(ColumnType::Bool), condition)?;
        let answer = type_in(&arm.answer, setting)?;
        sofar = agree(sofar, answer);
    }
    match otherwise {
        None => agree(sofar, ExprType::Null),
        Some(other) => {
            let other = type_in(other.get(), setting)?;
            agree(sofar, other)
        }
    }
}

/// An aggregate over the columns of the group.
#[cycle(typing)]
#[tactic(auto, using(crate::proofs::Typings::typings), unfolding(crate::specs::Types::over_type_at))]
fn type_over(op: Aggregate, of: &Expr, setting: &TypedSetting) -> Result<ExprType, CellError>
    ensures { result ≡ spec.over_type_at op (type_setting setting.now) of.now }
{
    match setting.group {
        None => Err(CellError::TypeFault),
        Some(columns) => {
            let over = TypedSetting {
                columns,
                group: None,
            };
            let x = type_in(of, &over)?;
            aggregate_type(op, x)
        }
    }
}

/// Each of the list is typed and compared in its turn.
#[cycle(typing)]
#[tactic(auto, using(crate::proofs::Typings::typings))]
fn type_list(of: ExprType, list: &[Expr], setting: &TypedSetting) -> Result<ExprType, CellError>
    ensures { result ≡ spec.list_typing of (each_typed setting.now list.now) }
{
    for item in list {
        let x = type_in(item, setting)?;
        comparison_type(of, x)?;
    }
    Ok(ExprType::Of(ColumnType::Bool))
}

/// What all of the list agree on, once all of them are typed.
#[cycle(typing)]
#[tactic(auto, using(crate::proofs::Typings::typings))]
fn type_all(list: &[Expr], setting: &TypedSetting) -> Result<ExprType, CellError>
    ensures { result ≡ spec.agreed (Ok type.Null) (each_typed setting.now list.now) }
{
    let mut sofar = Ok(ExprType::Null);
    for item in list {
        let x = type_in(item, setting)?;
        sofar = agree(sofar, x);
    }
    sofar
}
