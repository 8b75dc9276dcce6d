//! Expressions over a row. Expected values are worked out by hand from docs/EXPRESSIONS.md.
use crate::evaluate::eval_in;
use crate::setting::Setting;
use crate::{Binding, Bindings, ExprType, Scope, ScopeColumn, eval, type_of};
use cell_errors::{CellError, EvalFault};
use dataset_types::{Choice, Column, Marked, Picks, Site};
use expr_lang::{Arm, BinaryOp, Expr, Exprs};
use sqlite_items::Boxed;
use std::alloc::Global;
use std::process::Abort;
use value_types::{ColumnType, ListOf, Name, NoMemory, Value, Words, read_name};

fn named(text: &str) -> Result<Name, NoMemory> {
    read_name(text.as_bytes()).ok_or(NoMemory)
}

fn int(n: i64) -> Expr {
    Expr::Literal(Value::Int(n))
}

fn truth(b: bool) -> Expr {
    Expr::Literal(Value::Bool(b))
}

fn null() -> Expr {
    Expr::Literal(Value::Null)
}

fn column(name: &str) -> Result<Expr, NoMemory> {
    Ok(Expr::Column {
        qualifier: None,
        name: named(name)?,
    })
}

fn column_of(qualifier: &str, name: &str) -> Result<Expr, NoMemory> {
    Ok(Expr::Column {
        qualifier: Some(named(qualifier)?),
        name: named(name)?,
    })
}

fn binary(alloc: Global, op: BinaryOp, a: Expr, b: Expr) -> Result<Expr, NoMemory> {
    let a = Boxed::new(alloc, a)?;
    Ok(Expr::Binary(op, a, Boxed::new(alloc, b)?))
}

// 1 / 0, which is an error wherever it is looked at.
fn fault(alloc: Global) -> Result<Expr, NoMemory> {
    binary(alloc, BinaryOp::Divide, int(1), int(0))
}

fn caveat(alloc: Global, of: Expr) -> Result<Expr, NoMemory> {
    Ok(Expr::Caveat {
        of: Boxed::new(alloc, of)?,
        message: Words::new(alloc)?,
        call: 1,
    })
}

fn pair(alloc: Global, a: Expr, b: Expr) -> Result<Exprs, NoMemory> {
    let mut list = ListOf::new(alloc)?;
    list.push(alloc, a)?;
    list.push(alloc, b)?;
    Ok(list)
}

fn one_of(alloc: Global, of: Expr, a: Expr, b: Expr) -> Result<Expr, NoMemory> {
    Ok(Expr::OneOf {
        of: Boxed::new(alloc, of)?,
        list: pair(alloc, a, b)?,
        negated: false,
    })
}

// CASE WHEN condition THEN answer ELSE other END.
fn case(alloc: Global, condition: Expr, answer: Expr, other: Expr) -> Result<Expr, NoMemory> {
    let mut arms = ListOf::new(alloc)?;
    arms.push(alloc, Arm { condition, answer })?;
    Ok(Expr::Case {
        arms,
        otherwise: Some(Boxed::new(alloc, other)?),
    })
}

fn bound(qualifier: Option<Name>, name: Name, n: i64, marked: bool) -> Binding {
    let value = Marked {
        value: Value::Int(n),
        marked,
    };
    Binding {
        qualifier,
        name,
        value,
    }
}

// a = 1, t.a = 2, t.b = 3 marked, u.b = 4 and t.c = 5.
fn row(alloc: Global) -> Result<Bindings, NoMemory> {
    let mut row = ListOf::new(alloc)?;
    row.push(alloc, bound(None, named("a")?, 1, false))?;
    row.push(alloc, bound(Some(named("t")?), named("a")?, 2, false))?;
    row.push(alloc, bound(Some(named("t")?), named("b")?, 3, true))?;
    row.push(alloc, bound(Some(named("u")?), named("b")?, 4, false))?;
    row.push(alloc, bound(Some(named("t")?), named("c")?, 5, false))?;
    Ok(row)
}

fn value_of(alloc: Global, expr: Result<Expr, NoMemory>) -> Result<Marked, EvalFault> {
    let expr = expr?;
    let row = row(alloc)?;
    let picks = Picks::new(alloc)?;
    eval(alloc, &expr, &row, &picks, 1)
}

fn is(outcome: Result<Marked, EvalFault>, want: Value, marked: bool) -> bool {
    match outcome {
        Ok(got) => got.value == want && got.marked == marked,
        Err(_) => false,
    }
}

fn fails(outcome: Result<Marked, EvalFault>, want: CellError) -> bool {
    match outcome {
        Err(EvalFault::Error(error)) => error == want,
        _ => false,
    }
}

#[test]
fn a_name_means_one_column(rt: HostRuntime) {
    let alloc = rt.alloc();
    assert!(rt; is(value_of(alloc, column("a")), Value::Int(1), false));
    assert!(rt; is(value_of(alloc, column_of("t", "a")), Value::Int(2), false));
    assert!(rt; is(value_of(alloc, column("c")), Value::Int(5), false));
    assert!(rt; is(value_of(alloc, column_of("t", "b")), Value::Int(3), true));
    assert!(rt; fails(value_of(alloc, column("b")), CellError::NoColumn));
    assert!(rt; fails(value_of(alloc, column("d")), CellError::NoColumn));
    assert!(rt; fails(value_of(alloc, column_of("u", "a")), CellError::NoColumn));
}

// a AND 1 / 0, a OR 1 / 0
fn beside(alloc: Global, op: BinaryOp, left: bool) -> Result<Expr, NoMemory> {
    binary(alloc, op, truth(left), fault(alloc)?)
}

#[test]
fn what_is_decided_ends_the_evaluation(rt: HostRuntime) {
    let alloc = rt.alloc();
    let and = value_of(alloc, beside(alloc, BinaryOp::And, false));
    assert!(rt; is(and, Value::Bool(false), false));
    let or = value_of(alloc, beside(alloc, BinaryOp::Or, true));
    assert!(rt; is(or, Value::Bool(true), false));
    let open = value_of(alloc, beside(alloc, BinaryOp::And, true));
    assert!(rt; fails(open, CellError::ZeroDivisor));
}

fn found(alloc: Global, of: Expr, first: Expr) -> Result<Expr, NoMemory> {
    one_of(alloc, of, first, fault(alloc)?)
}

#[test]
fn in_goes_on_until_one_is_equal(rt: HostRuntime) {
    let alloc = rt.alloc();
    let one = value_of(alloc, found(alloc, int(1), int(1)));
    assert!(rt; is(one, Value::Bool(true), false));
    let fault = value_of(alloc, found(alloc, int(1), int(2)));
    assert!(rt; fails(fault, CellError::ZeroDivisor));
    let unknown = value_of(alloc, one_of(alloc, int(1), null(), int(2)));
    assert!(rt; is(unknown, Value::Null, false));
    let known = value_of(alloc, one_of(alloc, int(2), null(), int(2)));
    assert!(rt; is(known, Value::Bool(true), false));
    let of_null = value_of(alloc, one_of(alloc, null(), int(1), int(2)));
    assert!(rt; is(of_null, Value::Null, false));
}

// The marked t.b beside other parts.
fn marked_first(alloc: Global) -> Result<Expr, NoMemory> {
    let test = binary(alloc, BinaryOp::Equal, column_of("t", "b")?, int(3))?;
    case(alloc, test, int(1), fault(alloc)?)
}

fn marked_unread(alloc: Global) -> Result<Expr, NoMemory> {
    case(alloc, null(), column_of("t", "b")?, int(2))
}

fn first_of(alloc: Global, a: Expr, b: Result<Expr, NoMemory>) -> Result<Expr, NoMemory> {
    Ok(Expr::Coalesce(pair(alloc, a, b?)?))
}

#[test]
fn a_mark_comes_from_what_was_looked_at(rt: HostRuntime) {
    let alloc = rt.alloc();
    assert!(rt; is(value_of(alloc, marked_first(alloc)), Value::Int(1), true));
    assert!(rt; is(value_of(alloc, marked_unread(alloc)), Value::Int(2), false));
    let first = value_of(alloc, first_of(alloc, int(1), column_of("t", "b")));
    assert!(rt; is(first, Value::Int(1), false));
    let second = value_of(alloc, first_of(alloc, null(), column_of("t", "b")));
    assert!(rt; is(second, Value::Int(3), true));
}

// CAVEAT(7, '') with a pick for its call in cell 1.
fn repicked(alloc: Global, cell: u32, choice: Choice) -> Result<Marked, EvalFault> {
    let mut picks = Picks::new(alloc)?;
    picks.push(alloc, 1, Site::Call { call: 1 }, choice)?;
    let expr = caveat(alloc, int(7))?;
    let row = ListOf::new(alloc)?;
    eval(alloc, &expr, &row, &picks, cell)
}

#[test]
fn a_pick_that_fits_is_the_value(rt: HostRuntime) {
    let alloc = rt.alloc();
    assert!(rt;
        is(
            repicked(alloc, 1, Choice::Value(Value::Int(8))),
            Value::Int(8),
            true
        )
    );
    assert!(rt;
        is(
            repicked(alloc, 1, Choice::Value(Value::Null)),
            Value::Null,
            true
        )
    );
    assert!(rt;
        is(
            repicked(alloc, 1, Choice::Value(Value::Fixed(8))),
            Value::Int(7),
            true
        )
    );
    assert!(rt; is(repicked(alloc, 1, Choice::Keep(false)), Value::Int(7), true));
    assert!(rt;
        is(
            repicked(alloc, 2, Choice::Value(Value::Int(8))),
            Value::Int(7),
            true
        )
    );
}

fn sum_of(alloc: Global, of: Expr) -> Result<Expr, NoMemory> {
    Ok(Expr::Sum(Boxed::new(alloc, of)?))
}

fn counted(alloc: Global, grouped: bool) -> Result<Marked, EvalFault> {
    let mut rows = Vec::new(alloc);
    if rows.push(row(alloc)?).is_err() {
        return Err(EvalFault::NoMemory);
    }
    let sum = sum_of(alloc, column_of("t", "b")?)?;
    let keys = ListOf::new(alloc)?;
    let picks = Picks::new(alloc)?;
    let setting = Setting {
        row: &keys,
        group: if grouped { Some(rows.as_slice()) } else { None },
        marked: false,
        picks: &picks,
        cell: 1,
    };
    eval_in(alloc, &sum, &setting)
}

#[test]
fn an_aggregate_stands_over_a_group_alone(rt: HostRuntime) {
    let alloc = rt.alloc();
    assert!(rt; fails(value_of(alloc, Ok(Expr::CountAll)), CellError::TypeFault));
    assert!(rt; fails(counted(alloc, false), CellError::TypeFault));
    assert!(rt; is(counted(alloc, true), Value::Int(3), true));
}

fn scope(alloc: Global) -> Result<Scope, NoMemory> {
    let mut scope = ListOf::new(alloc)?;
    for (name, kind) in [
        ("i", ColumnType::Int),
        ("f", ColumnType::Fixed),
        ("x", ColumnType::Text),
    ] {
        let column = Column {
            name: named(name)?,
            kind,
        };
        let qualifier = Some(named("t")?);
        scope.push(alloc, ScopeColumn { qualifier, column })?;
    }
    Ok(scope)
}

fn typed(alloc: Global, expr: Result<Expr, NoMemory>) -> Result<ExprType, EvalFault> {
    let expr = expr?;
    let scope = scope(alloc)?;
    type_of(alloc, &expr, &scope)
}

fn two(alloc: Global, op: BinaryOp, a: &str, b: &str) -> Result<Expr, NoMemory> {
    binary(alloc, op, column(a)?, column(b)?)
}

#[test]
fn types_come_from_the_columns(rt: HostRuntime) {
    let alloc = rt.alloc();
    let sum = typed(alloc, two(alloc, BinaryOp::Add, "i", "f"));
    assert!(rt; matches!(sum, Ok(ExprType::Of(ColumnType::Fixed))));
    let less = typed(alloc, two(alloc, BinaryOp::Less, "i", "f"));
    assert!(rt; matches!(less, Ok(ExprType::Of(ColumnType::Bool))));
    let joined = typed(alloc, two(alloc, BinaryOp::Concat, "i", "x"));
    assert!(rt; matches!(joined, Ok(ExprType::Of(ColumnType::Text))));
    let null = typed(alloc, binary(alloc, BinaryOp::Add, null(), null()));
    assert!(rt; matches!(null, Ok(ExprType::Null)));
    let mixed = typed(alloc, first_of(alloc, int(1), column("f")));
    assert!(rt; matches!(mixed, Err(EvalFault::Error(CellError::TypeFault))));
}

#[test]
fn the_first_error_of_types_is_the_answer(rt: HostRuntime) {
    let alloc = rt.alloc();
    // 1 AND nocol, and 'x' + nocol.
    let early = typed(alloc, two(alloc, BinaryOp::And, "i", "nocol"));
    assert!(rt; matches!(early, Err(EvalFault::Error(CellError::TypeFault))));
    let late = typed(alloc, two(alloc, BinaryOp::Add, "x", "nocol"));
    assert!(rt; matches!(late, Err(EvalFault::Error(CellError::NoColumn))));
    let aggregate = typed(alloc, Ok(Expr::CountAll));
    assert!(rt; matches!(aggregate, Err(EvalFault::Error(CellError::TypeFault))));
}

fn copied(alloc: Global) -> Result<bool, NoMemory> {
    let row = row(alloc)?.copy(alloc)?;
    let scope = scope(alloc)?.copy(alloc)?;
    Ok(row.len() == 5 && scope.len() == 3)
}

#[test]
fn copies_are_whole(rt: HostRuntime) {
    assert!(rt; matches!(copied(rt.alloc()), Ok(true)));
}
