//! LIMIT.
ghost use Rattle.std.specs.Prelude.{◌≡◌, true, IfOk, map, take};
ghost use Rattle.cell_errors.specs.Answers.{Gives};
ghost use Rattle.rel_ops.specs.Limit.{doubted, limited};

use cell_errors::EvalFault;
use dataset_types::{Row, Rows};
use relations::{Rel, RelParts};
use std::alloc::Global;
use value_types::NoMemory;

fn first_rows(alloc: Global, rows: Rows, count: u64) -> Result<Rows, NoMemory>
    ensures { IfOk result (λ r. r ≡ take count rows) }
{
    let mut rows = rows.into_vec();
    if count < rows.len() as u64 {
        rows.truncate(count as usize);
    }
    Rows::from_vec(alloc, rows)
}

fn unsure_rows(alloc: Global, rows: Rows) -> Result<Rows, NoMemory>
    ensures { IfOk result (λ r. r ≡ map (doubted true) rows) }
{
    let mut all = Rows::new(alloc)?;
    for row in rows.into_vec() {
        all.push(alloc, Row { sure: false, ..row })?;
    }
    Ok(all)
}

fn doubted_rows(alloc: Global, rows: Rows, doubt: bool) -> Result<Rows, NoMemory>
    ensures { IfOk result (λ r. r ≡ map (doubted doubt) rows) }
{
    if doubt {
        unsure_rows(alloc, rows)
    } else {
        Ok(rows)
    }
}

/// LIMIT: the first rows, so many as there are up to the count.
///
/// - Marks: of an open or loose relation every row is unsure and the result is open, whatever the count.
/// - Source: docs/SELECT.md.
pub fn limit(alloc: Global, rel: Rel, count: u64) -> Result<Rel, EvalFault>
    ensures { Gives result (limited rel count) }
{
    let RelParts {
        columns,
        rows,
        is_open,
        is_loose,
    } = rel.into_parts();
    let doubt = is_open | is_loose;
    let rows = doubted_rows(alloc, first_rows(alloc, rows, count)?, doubt)?;
    Rel::new(alloc, columns, rows, doubt, is_loose)
}
