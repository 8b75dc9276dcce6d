//! Picks of calls of CAVEAT in a SELECT. The datasets are those of `tests.rt`.
use crate::tests::{datasets, gives_under};
use dataset_types::{Choice, Env, Picks, Site};
use std::alloc::Global;
use std::test::*;
use value_types::{NoMemory, Value, Words};

fn push_pick(
    alloc: Global,
    picks: &mut Picks,
    cell: u32,
    call: u32,
    value: Value,
) -> Result<(), NoMemory> {
    picks.push(alloc, cell, Site::Call { call }, Choice::Value(value))
}

fn one_pick(alloc: Global, cell: u32, call: u32, value: Value) -> Result<Picks, NoMemory> {
    let mut picks = Picks::new(alloc)?;
    push_pick(alloc, &mut picks, cell, call, value)?;
    Ok(picks)
}

/// A whole number, and after it a text at the same call.
fn number_and_text(alloc: Global) -> Result<Picks, NoMemory> {
    let mut picks = one_pick(alloc, 1, 1, Value::Int(7))?;
    let mut text = Words::new(alloc)?;
    text.push_text(alloc, "x")?;
    push_pick(alloc, &mut picks, 1, 1, Value::Text(text))?;
    Ok(picks)
}

fn under(alloc: Global, env: &Env, text: &str, picks: Result<Picks, NoMemory>, want: &str) -> bool {
    match picks {
        Ok(picks) => gives_under(alloc, env, text, &picks, want),
        Err(_) => false,
    }
}

/// Whether the ids of `l` under CAVEAT are these.
fn ids_are(alloc: Global, env: &Env, picks: Result<Picks, NoMemory>, want: &str) -> bool {
    let text = "select caveat(id, 'which?') as x from l";
    under(alloc, env, text, picks, want)
}

/// Whether the prices of `p` under CAVEAT are these.
fn prices_are(alloc: Global, env: &Env, picks: Result<Picks, NoMemory>, want: &str) -> bool {
    let text = "select caveat(price, 'how much?') as x from p";
    under(alloc, env, text, picks, want)
}

#[test]
fn a_pick_is_the_value_and_stays_marked(rt: HostRuntime) {
    let alloc = rt.alloc();
    let env = datasets(&rt, alloc).expect(&rt, "memory");
    let seven = one_pick(alloc, 1, 1, Value::Int(7));
    assert!(rt; ids_are(alloc, &env, seven, "#1 ~7; #2 ~7; "));
    let null = one_pick(alloc, 1, 1, Value::Null);
    assert!(rt; ids_are(alloc, &env, null, "#1 ~null; #2 ~null; "));
}

#[test]
fn a_pick_of_another_type_or_cell_is_not_taken(rt: HostRuntime) {
    let alloc = rt.alloc();
    let env = datasets(&rt, alloc).expect(&rt, "memory");
    let as_read = "#1 ~1; #2 ~3; ";
    let other_cell = one_pick(alloc, 2, 1, Value::Int(7));
    assert!(rt; ids_are(alloc, &env, other_cell, as_read));
    let fixed = one_pick(alloc, 1, 1, Value::Fixed(70_000));
    assert!(rt; ids_are(alloc, &env, fixed, as_read));
    let last_is_a_text = number_and_text(alloc);
    assert!(rt; ids_are(alloc, &env, last_is_a_text, as_read));
}

#[test]
fn a_null_takes_no_pick_and_an_int_is_not_widened(rt: HostRuntime) {
    let alloc = rt.alloc();
    let env = datasets(&rt, alloc).expect(&rt, "memory");
    let fixed = one_pick(alloc, 1, 1, Value::Fixed(70_000));
    assert!(rt; prices_are(alloc, &env, fixed, "#1 ~7.0000; #2 ~null; "));
    let whole = one_pick(alloc, 1, 1, Value::Int(7));
    assert!(rt; prices_are(alloc, &env, whole, "#1 ~2.5000; #2 ~null; "));
}

#[test]
fn calls_are_numbered_through_the_whole_text(rt: HostRuntime) {
    let alloc = rt.alloc();
    let env = datasets(&rt, alloc).expect(&rt, "memory");
    let text = "select caveat(id, 'which?') as x from l where caveat(id, 'is it?') = 3";
    let second = one_pick(alloc, 1, 2, Value::Int(3));
    assert!(rt; under(alloc, &env, text, second, "?#1 ~1; ?#2 ~3; open "));
}
