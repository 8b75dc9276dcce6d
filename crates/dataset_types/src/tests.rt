//! Tables at their limits, and each call that may want memory.
ghost use Rattle.std.specs.Prelude.{◌≡◌, IfOk};
ghost use Rattle.dataset_types.specs.Tables.{Distinct, row_ids};

use super::*;
use sqlite_items::Boxed;
use std::alloc::Global;
use std::process::Abort;
use std::test::*;
use value_types::{ArcOf, ColumnType, ListOf, Name, NoMemory, RowId, Value, Words, read_name};

// As many columns of one kind, `c00`, `c01` and so on.
fn columns_of(alloc: Global, count: u8, kind: ColumnType) -> Result<Columns, NoMemory> {
    let mut columns = ListOf::new(alloc)?;
    for n in 0..count {
        let name = read_name(&[b'c', b'0' + n / 10 % 10, b'0' + n % 10]).ok_or(NoMemory)?;
        columns.push(alloc, Column { name, kind })?;
    }
    Ok(columns)
}

fn values_of(alloc: Global, count: u8) -> Result<MarkedValues, NoMemory> {
    let mut values = ListOf::new(alloc)?;
    for _ in 0..count {
        values.push(alloc, unmarked(Value::Int(7)))?;
    }
    Ok(values)
}

// As many rows, numbered from 1, each with as many values.
#[tactic(auto, using(crate::proofs::TableLemmas::numbered_push, crate::proofs::TableLemmas::distinct_numbered))]
fn rows_of(alloc: Global, count: u32, width: u8) -> Result<Rows, NoMemory>
    ensures { IfOk result (λ rows. Distinct (row_ids rows)) }
{
    let mut rows = ListOf::new(alloc)?;
    for n in 0..count {
        let values = values_of(alloc, width)?;
        rows.push(
            alloc,
            Row {
                id: RowId::Rec(n + 1),
                sure: true,
                values,
            },
        )?;
    }
    Ok(rows)
}

#[tactic(auto, using(crate::proofs::TableLemmas::distinct_one))]
fn one_row(alloc: Global, id: RowId, sure: bool, cell: Marked) -> Result<Rows, NoMemory>
    ensures { IfOk result (λ rows. Distinct (row_ids rows)) }
{
    let mut values = ListOf::new(alloc)?;
    values.push(alloc, cell)?;
    let mut rows = ListOf::new(alloc)?;
    rows.push(alloc, Row { id, sure, values })?;
    Ok(rows)
}

fn unmarked(value: Value) -> Marked {
    Marked {
        value,
        marked: false,
    }
}

// A Text of as many bytes.
fn long_text(alloc: Global, len: u32) -> Result<Value, NoMemory> {
    let mut text = Words::new(alloc)?;
    for _ in 0..len {
        text.push_text(alloc, "x")?;
    }
    Ok(Value::Text(text))
}

// An id of as many parts, counted from 1.
fn long_id(alloc: Global, parts: u32) -> Result<RowId, NoMemory> {
    let mut id = RowId::Rec(1);
    for _ in 1..parts {
        id = RowId::First(Boxed::new(alloc, id)?);
    }
    Ok(id)
}

// Whether these parts are within the limits.
fn fits(rt: &impl Abort, alloc: Global, columns: Columns, rows: Rows) -> bool
    requires { Distinct (row_ids rows) }
{
    assert!(rt; names_distinct(columns.as_slice()));
    assert!(rt; rows_fit(columns.as_slice(), rows.as_slice()));
    assert!(rt; all_sure(rows.as_slice()));
    match Table::new(alloc, columns, rows, false, false) {
        Ok(_) => true,
        Err(fault) => {
            assert_eq!(rt; fault, TableFault::TooLarge);
            false
        }
    }
}

#[test]
fn a_table_reaches_its_limits_and_does_not_pass_them(rt: HostRuntime) {
    let alloc = rt.alloc();
    for (width, count, want) in [
        (0, 0, true),
        (32, 1, true),
        (33, 1, false),
        (1, 65_536, true),
        (1, 65_537, false),
        (2, 32_768, true),
        (2, 32_769, false),
    ] {
        let columns = columns_of(alloc, width, ColumnType::Int).expect(&rt, "memory");
        let rows = rows_of(alloc, count, width).expect(&rt, "memory");
        assert_eq!(rt;
            fits(&rt, alloc, columns, rows),
            want,
            "{width} columns, {count} rows"
        );
    }
}

#[test]
fn the_text_of_ids_and_values_is_counted_to_the_byte(rt: HostRuntime) {
    let alloc = rt.alloc();
    // The id's text is `#1`, of two bytes.
    for (len, want) in [(1_048_574, true), (1_048_575, false)] {
        let columns = columns_of(alloc, 1, ColumnType::Text).expect(&rt, "memory");
        let text = long_text(alloc, len).expect(&rt, "memory");
        let rows = one_row(alloc, RowId::Rec(1), true, unmarked(text)).expect(&rt, "memory");
        assert_eq!(rt; fits(&rt, alloc, columns, rows), want, "{len} bytes");
    }
}

#[test]
fn an_id_of_eight_parts_is_let_in_and_one_of_nine_is_not(rt: HostRuntime) {
    let alloc = rt.alloc();
    for (parts, want) in [(8, true), (9, false)] {
        let columns = columns_of(alloc, 1, ColumnType::Int).expect(&rt, "memory");
        let id = long_id(alloc, parts).expect(&rt, "memory");
        let rows = one_row(alloc, id, true, unmarked(Value::Null)).expect(&rt, "memory");
        assert_eq!(rt; fits(&rt, alloc, columns, rows), want, "{parts} parts");
    }
}

// The part of the plain table that is another.
#[derive(Clone, Copy, Debug, PartialEq, Eq)]
enum Change {
    Nothing,
    Name,
    Kind,
    Id,
    Sure,
    Value,
    Mark,
    Open,
    Loose,
}

fn named(rt: &impl Abort, letter: u8) -> Name {
    read_name(&[letter]).expect(rt, "a name")
}

fn column_with(rt: &impl Abort, alloc: Global, change: Change) -> Columns {
    let mut columns = ListOf::new(alloc).expect(rt, "memory");
    let name = named(rt, if change == Change::Name { b'b' } else { b'a' });
    let kind = if change == Change::Kind {
        ColumnType::Bool
    } else {
        ColumnType::Int
    };
    columns
        .push(alloc, Column { name, kind })
        .expect(rt, "memory");
    columns
}

fn row_with(rt: &impl Abort, alloc: Global, change: Change) -> Rows
    ensures { Distinct (row_ids result) }
{
    let value = if change == Change::Value {
        Value::Int(1)
    } else {
        Value::Null
    };
    let cell = Marked {
        value,
        marked: change == Change::Mark,
    };
    let id = RowId::Rec(if change == Change::Id { 2 } else { 1 });
    one_row(alloc, id, change != Change::Sure, cell).expect(rt, "memory")
}

fn table_with(rt: &impl Abort, alloc: Global, change: Change) -> Table {
    let columns = column_with(rt, alloc, change);
    let rows = row_with(rt, alloc, change);
    let is_open = change != Change::Open;
    assert!(rt; names_distinct(columns.as_slice()));
    assert!(rt; rows_fit(columns.as_slice(), rows.as_slice()));
    assert!(rt; is_open || all_sure(rows.as_slice()));
    Table::new(alloc, columns, rows, is_open, change == Change::Loose).expect(rt, "memory")
}

#[test]
fn a_copied_table_is_the_same_until_a_part_is_changed(rt: HostRuntime) {
    let alloc = rt.alloc();
    let plain = table_with(&rt, alloc, Change::Nothing);
    let copied = plain.copy(alloc).expect(&rt, "memory");
    assert!(rt; table_same(&plain, &copied));
    for change in [
        Change::Name,
        Change::Kind,
        Change::Id,
        Change::Sure,
        Change::Value,
        Change::Mark,
        Change::Open,
        Change::Loose,
    ] {
        let changed = table_with(&rt, alloc, change);
        assert!(rt; !table_same(&plain, &changed), "{change:?}");
    }
}

fn holding(rt: &impl Abort, alloc: Global, change: Change) -> Slot {
    let table = ArcOf::new(alloc, table_with(rt, alloc, change)).expect(rt, "memory");
    Slot {
        table: Some(table),
        doubt: false,
    }
}

#[test]
fn slots_differ_by_table_and_by_doubt(rt: HostRuntime) {
    let alloc = rt.alloc();
    let slot = holding(&rt, alloc, Change::Nothing);
    let copied = slot.copy(alloc).expect(&rt, "memory");
    assert!(rt; slot_same(&slot, &copied));
    assert!(rt; slot_same(&slot, &holding(&rt, alloc, Change::Nothing)));
    assert!(rt; !slot_same(&slot, &holding(&rt, alloc, Change::Mark)));
    assert!(rt; !slot_same(&slot, &copied.blurred(true)));
    assert!(rt; !slot_same(&slot, &Slot::absent()));
    assert!(rt; slot_same(&Slot::absent(), &Slot::absent()));
}

fn put(rt: &impl Abort, alloc: Global, env: &mut Env, letter: u8, slot: &Slot) {
    let slot = slot.copy(alloc).expect(rt, "memory");
    env.set(alloc, named(rt, letter), slot).expect(rt, "memory");
}

fn has(rt: &impl Abort, alloc: Global, env: &Env, letter: u8, want: &Slot) -> bool {
    let slot = env.get(alloc, &named(rt, letter)).expect(rt, "memory");
    slot_same(&slot, want)
}

#[test]
fn an_environment_gives_what_was_set_last(rt: HostRuntime) {
    let alloc = rt.alloc();
    let slot = holding(&rt, alloc, Change::Nothing);
    let mut env = Env::new(alloc).expect(&rt, "memory");
    put(&rt, alloc, &mut env, b'b', &slot);
    put(&rt, alloc, &mut env, b'a', &slot);
    put(&rt, alloc, &mut env, b'b', &Slot::absent());
    for (entry, letter) in env.slots().as_slice().iter().zip([b'a', b'b']) {
        assert_eq!(rt; entry.name.as_slice(), [letter].as_slice());
    }
    assert!(rt; has(&rt, alloc, &env, b'a', &slot));
    assert!(rt; has(&rt, alloc, &env, b'b', &Slot::absent()));
    assert!(rt; has(&rt, alloc, &env, b'c', &Slot::absent()));
}

#[test]
fn a_blur_leaves_every_name_in_doubt(rt: HostRuntime) {
    let alloc = rt.alloc();
    let slot = holding(&rt, alloc, Change::Nothing);
    let mut before = Env::new(alloc).expect(&rt, "memory");
    put(&rt, alloc, &mut before, b'a', &slot);
    let mut env = before.copy(alloc).expect(&rt, "memory");
    env.blur(alloc).expect(&rt, "memory");
    assert!(rt; env.is_blurred() && !before.is_blurred());
    assert!(rt; has(&rt, alloc, &env, b'z', &Slot::absent().blurred(true)));
    assert!(rt; has(&rt, alloc, &env, b'a', &slot.blurred(true)));
}

#[test]
fn of_two_writes_of_a_name_the_first_counts(rt: HostRuntime) {
    let alloc = rt.alloc();
    let doubtful = Slot::absent().blurred(true);
    let mut writes = ListOf::new(alloc).expect(&rt, "memory");
    for slot in [doubtful, Slot::absent()] {
        let name = named(&rt, b'a');
        writes
            .push(alloc, Named { name, slot })
            .expect(&rt, "memory");
    }
    let mut env = Env::new(alloc).expect(&rt, "memory");
    env.set_all(alloc, writes.as_slice()).expect(&rt, "memory");
    assert!(rt; has(&rt, alloc, &env, b'a', &Slot::absent().blurred(true)));
}

#[test]
fn the_last_pick_for_a_site_counts(rt: HostRuntime) {
    let alloc = rt.alloc();
    let field = Site::Field {
        number: 2,
        column: 1,
    };
    let record = Site::Record { number: 2 };
    let mut picks = Picks::new(alloc).expect(&rt, "memory");
    for (cell, site, keep) in [
        (3, field, true),
        (3, field, false),
        (3, record, true),
        (4, field, true),
    ] {
        picks
            .push(alloc, cell, site, Choice::Keep(keep))
            .expect(&rt, "memory");
    }
    let picks = picks.copy(alloc).expect(&rt, "memory");
    assert!(rt; matches!(picks.choice(3, &field), Some(Choice::Keep(false))));
    assert!(rt; matches!(picks.choice(3, &record), Some(Choice::Keep(true))));
    assert!(rt; picks.choice(3, &Site::Call { call: 2 }).is_none());
    assert!(rt; picks.choice(5, &field).is_none());
}
