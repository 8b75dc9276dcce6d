//! Left rows that have no pair.
ghost use Rattle.std.specs.Prelude.{◌≡◌, replicate, IfOk};
ghost use Rattle.std.specs.Option.{option_and_then};
ghost use Rattle.rel_join.specs.Few.{if_few};
ghost use Rattle.rel_join.specs.Join.{alone, by_kind, null_value};

use crate::few::Few;
use crate::kind::Kind;
use dataset_types::{Marked, MarkedValues, Row};
use sqlite_items::Boxed;
use std::alloc::Global;
use value_types::{NoMemory, RowId, Value};

fn nulls(alloc: Global, count: usize) -> Result<MarkedValues, NoMemory>
    ensures { IfOk result (λ values. values ≡ replicate count null_value) }
{
    let mut values = MarkedValues::new(alloc)?;
    for i in 0..count {
        let null = Marked {
            value: Value::Null,
            marked: false,
        };
        values.push(alloc, null)?;
    }
    Ok(values)
}

fn stand_alone(
    alloc: Global,
    width: usize,
    right_open: bool,
    marked: bool,
    left: &Row,
) -> Result<Row, NoMemory>
    ensures { IfOk result (λ r. r ≡ alone width right_open marked left.now) }
{
    let mut values = left.values.copy(alloc)?;
    values.append(alloc, nulls(alloc, width)?)?;
    let id = Boxed::new(alloc, left.id.copy(alloc)?)?;
    Ok(Row {
        id: RowId::Alone(id),
        sure: left.sure & (!right_open & !marked),
        values,
    })
}

/// The pairs that were found of a left row, and for LEFT JOIN the row itself where there are none. `width` is the number of
/// columns on the right side.
pub fn finish(
    alloc: Global,
    kind: Kind,
    width: usize,
    right_open: bool,
    left: &Row,
    mut found: Few,
) -> Result<Few, NoMemory>
    ensures { IfOk result (λ f. f
        ≡ option_and_then (λ m. if_few (by_kind kind width right_open left.now m)) found) }
{
    found.law_of_few();
    if let Kind::Outer = kind {
        let lone = match found.batch() {
            Some(batch) if batch.rows.len() == 0 => {
                Some(stand_alone(alloc, width, right_open, batch.marked, left)?)
            }
            _ => None,
        };
        if let Some(row) = lone {
            // It stands for no pair, so no ON marks it.
            found.push(alloc, row, false)?;
        }
    }
    Ok(found)
}
