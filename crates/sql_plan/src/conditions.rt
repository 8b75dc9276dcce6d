//! The types of conditions.
ghost use Rattle.std.specs.Prelude.{◌≡◌};
ghost use Rattle.expr_meaning.specs.Calls.{type_setting};
ghost use Rattle.sql_plan.specs.Conditions as spec;

use cell_errors::CellError;
use expr_lang::Expr;
use expr_meaning::{ExprType, TypedSetting, type_in};
use value_types::ColumnType;

fn where_condition(of: ExprType) -> Result<(), CellError>
    ensures { result ≡ spec.where_condition of }
{
    match of {
        ExprType::Null | ExprType::Of(ColumnType::Bool) => Ok(()),
        ExprType::Of(_) => Err(CellError::TypeFault),
    }
}

/// `TypeFault` where the expression is neither a Bool nor NULL, or the first error of its types.
pub(crate) fn condition_checked(setting: &TypedSetting, expr: &Expr) -> Result<(), CellError>
    ensures { result ≡ spec.condition_checked (type_setting setting.now) expr.now }
{
    where_condition(type_in(expr, setting)?)
}

/// The same where there is one.
pub(crate) fn some_condition_checked(
    setting: &TypedSetting,
    condition: &Option<Expr>,
) -> Result<(), CellError>
    ensures { result ≡ spec.some_condition_checked (type_setting setting.now) condition.now }
{
    match condition {
        None => Ok(()),
        Some(expr) => condition_checked(setting, expr),
    }
}
