//! UNION ALL.
ghost use Rattle.std.specs.Prelude.{◌≡◌, ◌↔◌, ◌++◌, IfOk, IsTrue, map};
ghost use Rattle.value_types.specs.declared.row_id.RowId.{First, Second};
ghost use Rattle.cell_errors.specs.Answers.{Gives};
ghost use Rattle.rel_ops.specs.Union.{column_types, types_agree, sided, united};

use cell_errors::EvalFault;
use dataset_types::{Row, Rows};
use expr_meaning::ScopeColumn;
use relations::{Rel, RelParts};
use sqlite_items::Boxed;
use std::alloc::Global;
use value_types::{NoMemory, RowId};

fn left_rows(alloc: Global, rows: Rows) -> Result<Rows, NoMemory>
    ensures { IfOk result (λ r. r ≡ map (sided First) rows) }
{
    let mut all = Rows::new(alloc)?;
    for row in rows.into_vec() {
        let Row { id, sure, values } = row;
        let id = RowId::First(Boxed::new(alloc, id)?);
        all.push(alloc, Row { id, sure, values })?;
    }
    Ok(all)
}

fn right_rows(alloc: Global, rows: Rows) -> Result<Rows, NoMemory>
    ensures { IfOk result (λ r. r ≡ map (sided Second) rows) }
{
    let mut all = Rows::new(alloc)?;
    for row in rows.into_vec() {
        let Row { id, sure, values } = row;
        let id = RowId::Second(Boxed::new(alloc, id)?);
        all.push(alloc, Row { id, sure, values })?;
    }
    Ok(all)
}

fn both_sides(alloc: Global, left: Rows, right: Rows) -> Result<Rows, NoMemory>
    ensures { IfOk result (λ r. r ≡ map (sided First) left ++ map (sided Second) right) }
{
    let mut rows = left_rows(alloc, left)?;
    rows.append(alloc, right_rows(alloc, right)?)?;
    Ok(rows)
}

/// Whether two sides have columns of the same types, in order.
#[tactic(auto, using(crate::proofs::UnionLaws::types_decide))]
pub fn types_agree(a: &[ScopeColumn], b: &[ScopeColumn]) -> bool
    ensures { IsTrue result ↔ (column_types a.now ≡ column_types b.now) }
{
    agree(a, b)
}

fn agree(a: &[ScopeColumn], b: &[ScopeColumn]) -> bool
    ensures { result ≡ types_agree a.now b.now }
{
    if a.len() != b.len() {
        return false;
    }
    for i in 0..a.len() {
        if a[i].column.kind != b[i].column.kind {
            return false;
        }
    }
    true
}

/// UNION ALL: the rows of the left side and then those of the right, under the names of the left.
///
/// - Shape: both sides have columns of the same types, in order.
/// - Error: `TooLarge` where the whole result passes a limit.
/// - Source: docs/SELECT.md.
pub fn union_all(alloc: Global, a: Rel, b: Rel) -> Result<Rel, EvalFault>
    requires types { column_types a.columns ≡ column_types b.columns }
    ensures { Gives result (united a b) }
{
    let left = a.into_parts();
    let right = b.into_parts();
    let rows = both_sides(alloc, left.rows, right.rows)?;
    Rel::new(
        alloc,
        left.columns,
        rows,
        left.is_open | right.is_open,
        left.is_loose | right.is_loose,
    )
}
