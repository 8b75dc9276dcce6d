//! More keys than rows are put one after another into: the rows are then sorted by key and cut.
ghost use Rattle.std.specs.Prelude.{IfOk};
ghost use Rattle.dataset_types.specs.Tables.{Distinct, row_ids};

use crate::tests::{columns, distinct_of, gives, grouped, int_or_null};
use cell_errors::EvalFault;
use dataset_types::{MarkedValues, Row, Rows, Table, all_sure, names_distinct, rows_fit};
use expr_lang::Expr;
use relations::Rel;
use std::alloc::Global;
use std::process::Abort;
use std::test::*;
use value_types::{ListOf, NoMemory, RowId, Words};

const ROWS: u32 = 40;

const KEYS: u32 = 36;

/// The key of a row, out of order: 0, 7, 14 and so on to 35, then 6, 13, ..; the rows 36 to 39 have 0, 7, 14 and 21 again.
fn key_of(n: u32) -> u32 {
    (n % KEYS) * 7 % KEYS
}

/// The key, and a 5.
fn values(alloc: Global, n: u32) -> Result<MarkedValues, NoMemory> {
    let mut values = MarkedValues::new(alloc)?;
    values.push(alloc, int_or_null(Some(key_of(n) as i64), false))?;
    values.push(alloc, int_or_null(Some(5), false))?;
    Ok(values)
}

// As many rows, numbered from 1.
#[tactic(auto, using(dataset_types::proofs::TableLemmas::numbered_push, dataset_types::proofs::TableLemmas::distinct_numbered))]
fn rows_of(alloc: Global, count: u32) -> Result<Rows, NoMemory>
    ensures { IfOk result (λ rows. Distinct (row_ids rows)) }
{
    let mut rows = ListOf::new(alloc)?;
    for n in 0..count {
        let values = values(alloc, n)?;
        rows.push(
            alloc,
            Row {
                id: RowId::Rec(n + 1),
                sure: true,
                values,
            },
        )?;
    }
    Ok(rows)
}

fn rel(rt: &impl Abort, alloc: Global) -> Result<Rel, EvalFault> {
    let columns = columns(alloc)?;
    let rows = rows_of(alloc, ROWS)?;
    assert!(rt; names_distinct(columns.as_slice()));
    assert!(rt; rows_fit(columns.as_slice(), rows.as_slice()));
    assert!(rt; all_sure(rows.as_slice()));
    match Table::new(alloc, columns, rows, false, false) {
        Ok(table) => Ok(Rel::of_table(alloc, &table, &None)?),
        Err(_) => Err(EvalFault::NoMemory),
    }
}

/// How often a key comes.
fn count_of(key: u32) -> u32 {
    match key {
        0 | 7 | 14 | 21 => 2,
        _ => 1,
    }
}

/// `[0] 2; [1] 1; ` and so on.
fn counts(alloc: Global) -> Result<Words, NoMemory> {
    let mut out = Words::new(alloc)?;
    for key in 0..KEYS {
        let count = count_of(key);
        let text = format!(in alloc; "[{key}] {count}; ")?;
        out.push_text(alloc, text.as_str())?;
    }
    Ok(out)
}

/// `[0,5] 0 5; [1,5] 1 5; ` and so on.
fn pairs(alloc: Global) -> Result<Words, NoMemory> {
    let mut out = Words::new(alloc)?;
    for key in 0..KEYS {
        let text = format!(in alloc; "[{key},5] {key} 5; ")?;
        out.push_text(alloc, text.as_str())?;
    }
    Ok(out)
}

fn is(alloc: Global, answer: &Result<Rel, EvalFault>, want: Result<Words, NoMemory>) -> bool {
    match want {
        Ok(want) => gives(alloc, answer, want.as_text()),
        Err(_) => false,
    }
}

#[test]
fn many_groups_are_in_ascending_order_with_all_their_rows(rt: HostRuntime) {
    let alloc = rt.alloc();
    let count = Ok(Expr::CountAll);
    let answer = grouped(&rt, alloc, rel(&rt, alloc), &[1], None, count);
    assert!(rt; is(alloc, &answer, counts(alloc)));
}

#[test]
fn many_distinct_rows_are_in_ascending_order(rt: HostRuntime) {
    let alloc = rt.alloc();
    let answer = distinct_of(alloc, rel(&rt, alloc));
    assert!(rt; is(alloc, &answer, pairs(alloc)));
}
