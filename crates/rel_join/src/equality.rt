//! ON that compares two columns.
//!
//! Its names are looked for once in a join. In each pair the values are read at the places of their columns, and no row is bound.
ghost use Rattle.std.specs.Prelude.{◌≡◌, IfOk, IfSome};
ghost use Rattle.expr_lang.specs.declared.expr.Expr.{Binary};
ghost use Rattle.rel_join.specs.Equalities as spec;

use cell_errors::CellError;
use dataset_types::Marked;
use expr_lang::{BinaryOp, Expr};
use expr_meaning::ScopeColumn;
use expr_ops::{equal, is_true};
use relations::{ColumnPlaces, Test};
use std::alloc::Global;
use value_types::NoMemory;

/// The places of the two columns that are compared, counted from 0 among those of both sides.
#[derive(Clone, Copy)]
pub struct Equality {
    pub first: usize,
    pub second: usize,
}

/// The places that an operator of two operands compares, where it is `=` and both are columns.
fn equality_by(
    alloc: Global,
    columns: &[ScopeColumn],
    op: BinaryOp,
    first: &Expr,
    second: &Expr,
) -> Result<Option<Equality>, NoMemory>
    ensures { IfOk result (λ found. IfSome found (λ at.
        spec.ComparesPlaces columns.now at (Binary op first.now second.now))) }
{
    match op {
        BinaryOp::Equal => {
            let places = ColumnPlaces::new(alloc, columns)?;
            match (places.column_place(first), places.column_place(second)) {
                (Some(first), Some(second)) => Ok(Some(Equality { first, second })),
                _ => Ok(None),
            }
        }
        _ => Ok(None),
    }
}

/// The places that are compared, where ON is the equality of two columns. A name that stands for none is left to each pair.
pub fn equality_of(
    alloc: Global,
    columns: &[ScopeColumn],
    on: &Expr,
) -> Result<Option<Equality>, NoMemory>
    ensures { IfOk result (λ found. IfSome found (λ at. spec.ComparesPlaces columns.now at on.now)) }
{
    match on {
        Expr::Binary(op, first, second) => {
            equality_by(alloc, columns, *op, first.get(), second.get())
        }
        _ => Ok(None),
    }
}

/// Whether two values are equal.
///
/// - Error: `TypeFault` where values of their types aren't compared.
pub fn test_equal(x: &Marked, y: &Marked) -> Result<Test, CellError>
    ensures { result ≡ spec.equal_test x.now y.now }
{
    let value = equal(&x.value, &y.value)?;
    let holds = is_true(&value)?;
    Ok(Test {
        holds,
        marked: x.marked | y.marked,
    })
}
