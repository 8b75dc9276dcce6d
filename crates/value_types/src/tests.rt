//! Texts and numbers as docs/FORMATS.md writes them, and each call that takes memory once.
use crate::{
    ArcOf, Bytes, ColumnType, ListOf, Name, Names, NoMemory, RowId, Value, Values, Words, compare,
    id_parts, id_text, id_weight, literal_text, plain_text, push_id, push_literal, read_bool,
    read_fixed, read_int, read_name, widen,
};
use sqlite_items::Boxed;
use std::alloc::Global;
use std::cmp::Ordering;
use std::process::Abort;
use std::test::Fail;

fn words(alloc: Global, text: &str) -> Result<Words, NoMemory> {
    let mut all = Words::new(alloc)?;
    all.push_text(alloc, text)?;
    Ok(all)
}

fn named(text: &str) -> Result<Name, NoMemory> {
    read_name(text.as_bytes()).ok_or(NoMemory)
}

fn rec(alloc: Global, n: u32) -> Result<Boxed<RowId>, NoMemory> {
    Ok(Boxed::new(alloc, RowId::Rec(n))?)
}

/// A key of every type of value.
fn key(alloc: Global) -> Result<Values, NoMemory> {
    let mut values = Values::new(alloc)?;
    values.push(alloc, Value::Null)?;
    values.push(alloc, Value::Bool(true))?;
    values.push(alloc, Value::Int(-7))?;
    values.push(alloc, Value::Fixed(25_000))?;
    values.push(alloc, Value::Text(words(alloc, "a \"b\"\n")?))?;
    Ok(values)
}

/// The two sides of a union, joined.
fn sides(alloc: Global) -> Result<RowId, NoMemory> {
    let first = RowId::First(Boxed::new(alloc, RowId::Named(named("total")?))?);
    let second = RowId::Second(Boxed::new(alloc, RowId::Key(key(alloc)?))?);
    Ok(RowId::Pair(Boxed::new(alloc, first)?, Boxed::new(alloc, second)?))
}

/// An id that holds each kind of id.
fn nested(alloc: Global) -> Result<RowId, NoMemory> {
    let alone = RowId::Alone(Boxed::new(alloc, RowId::Emit(3))?);
    let rest = RowId::Pair(rec(alloc, 12)?, Boxed::new(alloc, alone)?);
    Ok(RowId::Pair(Boxed::new(alloc, sides(alloc)?)?, Boxed::new(alloc, rest)?))
}

#[test]
fn int_takes_both_ends_of_its_range(rt: HostRuntime) {
    for (text, want) in [
        ("9223372036854775807", Some(i64::MAX)),
        ("9223372036854775808", None),
        ("-9223372036854775808", Some(i64::MIN)),
        ("-9223372036854775809", None),
        ("+9223372036854775807", Some(i64::MAX)),
        ("99999999999999999999999999", None),
        ("00000000000000000000000000007", Some(7)),
        ("007", Some(7)),
        ("+1", Some(1)),
        ("-0", Some(0)),
        ("-42", Some(-42)),
        ("", None),
        ("+", None),
        ("-", None),
        ("+-1", None),
        (" 1", None),
        ("1.0", None),
        ("1e3", None),
    ] {
        assert_eq!(rt; read_int(text.as_bytes()), want, "at {text}");
    }
}

#[test]
fn fixed_takes_both_ends_of_its_range(rt: HostRuntime) {
    for (text, want) in [
        ("922337203685477.5807", Some(i64::MAX)),
        ("922337203685477.5808", None),
        ("-922337203685477.5808", Some(i64::MIN)),
        ("-922337203685477.5809", None),
        ("99999999999999999999999999.9", None),
        ("-0.5", Some(-5000)),
        ("+1.25", Some(12_500)),
        ("1.234", Some(12_340)),
        ("0001.2345", Some(12_345)),
        ("12", Some(120_000)),
        ("1.", None),
        (".5", None),
        ("1.23456", None),
        ("1.-2", None),
        ("1.2.3", None),
        ("1,5", None),
        ("", None),
        ("-", None),
    ] {
        assert_eq!(rt; read_fixed(text.as_bytes()), want, "at {text}");
    }
}

#[test]
fn bool_is_read_in_any_case(rt: HostRuntime) {
    for (text, want) in [
        ("TRUE", Some(true)),
        ("true", Some(true)),
        ("fAlSe", Some(false)),
        ("yes", None),
        ("true ", None),
        ("1", None),
        ("", None),
    ] {
        assert_eq!(rt; read_bool(text.as_bytes()), want, "at {text}");
    }
}

#[test]
fn widening_stops_where_the_count_does_not_fit(rt: HostRuntime) {
    for (whole, want) in [
        (2, Some(20_000)),
        (922_337_203_685_477, Some(9_223_372_036_854_770_000)),
        (922_337_203_685_478, None),
        (-922_337_203_685_477, Some(-9_223_372_036_854_770_000)),
        (-922_337_203_685_478, None),
    ] {
        assert_eq!(rt; widen(whole), want, "at {whole}");
    }
}

#[test]
fn a_name_has_at_most_32_bytes(rt: HostRuntime) {
    for (text, want) in [
        ("abcdefghijklmnopqrstuvwxyz_12345", true),
        ("abcdefghijklmnopqrstuvwxyz_123456", false),
        ("a", true),
        ("", false),
        ("_a", false),
        ("1a", false),
        ("aB", false),
        ("a-b", false),
    ] {
        match read_name(text.as_bytes()) {
            Some(name) => {
                assert!(rt; want, "at {text}");
                assert_eq!(rt; name.as_text(), text);
                assert_eq!(rt; name.len(), text.len());
                assert!(rt; name == name.copy(), "at {text}");
            }
            None => assert!(rt; !want, "at {text}"),
        }
    }
}

/// Asserts the literal text, appended by either call, and the plain text.
fn expect_texts(
    rt: &impl Abort,
    alloc: Global,
    value: &Value,
    literal: &str,
    plain: &str,
) -> Result<(), NoMemory> {
    let mut out = words(alloc, literal)?;
    literal_text(alloc, value, &mut out)?;
    push_literal(alloc, &mut out, value)?;
    let mut want = words(alloc, literal)?;
    want.push_text(alloc, literal)?;
    want.push_text(alloc, literal)?;
    assert_eq!(rt; out.as_text(), want.as_text());
    let mut out = Words::new(alloc)?;
    plain_text(alloc, value, &mut out)?;
    assert_eq!(rt; out.as_text(), plain);
    Ok(())
}

#[test]
fn values_have_their_literal_texts(rt: HostRuntime) -> Result<(), Fail> {
    for (value, text) in [
        (Value::Null, "null"),
        (Value::Bool(true), "true"),
        (Value::Bool(false), "false"),
        (Value::Int(i64::MIN), "-9223372036854775808"),
        (Value::Int(0), "0"),
        (Value::Fixed(-5000), "-0.5000"),
        (Value::Fixed(i64::MIN), "-922337203685477.5808"),
        (Value::Fixed(10_203), "1.0203"),
    ] {
        expect_texts(&rt, rt.alloc(), &value, text, text)?;
    }
    Ok(())
}

#[test]
fn texts_are_quoted_and_escaped(rt: HostRuntime) -> Result<(), Fail> {
    let alloc = rt.alloc();
    for (text, literal) in [
        ("", "\"\""),
        ("a b", "\"a b\""),
        ("\"\\\n\r\t", "\"\\\"\\\\\\n\\r\\t\""),
        ("\u{1}\u{1f}\u{7f}ä", "\"\\u0001\\u001f\u{7f}ä\""),
    ] {
        let value = Value::Text(words(alloc, text)?);
        expect_texts(&rt, alloc, &value, literal, text)?;
    }
    Ok(())
}

/// Asserts the id's text, weight and parts.
fn expect_id(
    rt: &impl Abort,
    alloc: Global,
    id: &RowId,
    text: &str,
    parts: u64,
) -> Result<(), NoMemory> {
    let mut out = Words::new(alloc)?;
    id_text(alloc, id, &mut out)?;
    assert_eq!(rt; out.as_text(), text);
    push_id(alloc, &mut out, id)?;
    assert_eq!(rt; out.len(), text.len().saturating_mul(2), "at {text}");
    assert_eq!(rt; id_weight(id), text.len() as u64, "at {text}");
    assert_eq!(rt; id_parts(id), parts, "at {text}");
    Ok(())
}

#[test]
fn ids_have_their_texts_weights_and_parts(rt: HostRuntime) -> Result<(), Fail> {
    let alloc = rt.alloc();
    expect_id(&rt, alloc, &RowId::Rec(1), "#1", 1)?;
    expect_id(&rt, alloc, &RowId::Rec(u32::MAX), "#4294967295", 1)?;
    expect_id(&rt, alloc, &RowId::Emit(30), "+30", 1)?;
    expect_id(&rt, alloc, &RowId::Key(Values::new(alloc)?), "[]", 1)?;
    let text = "((<@total,>[null,true,-7,2.5000,\"a \\\"b\\\"\\n\"]),(#12,(+3,-)))";
    expect_id(&rt, alloc, &nested(alloc)?, text, 7)?;
    Ok(())
}

/// Values in ascending order.
fn ascending(alloc: Global) -> Result<Values, NoMemory> {
    let mut values = Values::new(alloc)?;
    values.push(alloc, Value::Null)?;
    for truth in [false, true] {
        values.push(alloc, Value::Bool(truth))?;
    }
    for number in [-1, 2] {
        values.push(alloc, Value::Int(number))?;
    }
    for number in [-20_000, 1] {
        values.push(alloc, Value::Fixed(number))?;
    }
    for text in ["", "Z", "a", "aa", "ä"] {
        values.push(alloc, Value::Text(words(alloc, text)?))?;
    }
    Ok(values)
}

#[test]
fn the_order_goes_by_type_and_then_by_value(rt: HostRuntime) -> Result<(), Fail> {
    let values = ascending(rt.alloc())?;
    for (i, a) in values.as_slice().iter().enumerate() {
        for (j, b) in values.as_slice().iter().enumerate() {
            let want = i.cmp(&j);
            assert_eq!(rt; compare(a, b), want, "at {a:?} and {b:?}");
            assert_eq!(rt; *a == *b, want == Ordering::Equal, "at {a:?} and {b:?}");
        }
    }
    Ok(())
}

#[test]
fn texts_and_names_are_copied(rt: HostRuntime) -> Result<(), Fail> {
    let alloc = rt.alloc();
    let mut bytes = Bytes::from_slice(alloc, b"ab")?;
    bytes.push(alloc, 0)?;
    bytes.push_slice(alloc, b"cd")?;
    assert_eq!(rt; bytes.copy(alloc)?.as_slice(), b"ab\0cd".as_slice());
    let text = words(alloc, "some text")?;
    assert_eq!(rt; text.copy(alloc)?.as_text(), "some text");
    let mut names = Names::new(alloc)?;
    names.push(alloc, named("a")?)?;
    names.append(alloc, names.copy(alloc)?)?;
    assert_eq!(rt; names.len(), 2);
    assert!(rt; names.copy(alloc)? == names);
    Ok(())
}

#[test]
fn values_and_ids_are_copied(rt: HostRuntime) -> Result<(), Fail> {
    let alloc = rt.alloc();
    let values = key(alloc)?;
    assert!(rt; values.copy(alloc)? == values);
    for value in values.as_slice() {
        assert!(rt; value.copy(alloc)? == *value, "at {value:?}");
    }
    let id = nested(alloc)?;
    assert!(rt; id.copy(alloc)? == id);
    let shared = ArcOf::new(alloc, id)?;
    assert!(rt; *shared.copy(alloc)?.get() == nested(alloc)?);
    Ok(())
}

/// Ids that all differ.
fn different(alloc: Global) -> Result<ListOf<RowId>, NoMemory> {
    let mut ids = ListOf::new(alloc)?;
    for n in [1, 2] {
        ids.push(alloc, RowId::Rec(n))?;
        ids.push(alloc, RowId::Emit(n))?;
        ids.push(alloc, RowId::Alone(rec(alloc, n)?))?;
        ids.push(alloc, RowId::First(rec(alloc, n)?))?;
        ids.push(alloc, RowId::Second(rec(alloc, n)?))?;
        ids.push(alloc, RowId::Pair(rec(alloc, n)?, rec(alloc, 1)?))?;
    }
    for name in ["a", "ab"] {
        ids.push(alloc, RowId::Named(named(name)?))?;
    }
    ids.push(alloc, RowId::Key(Values::new(alloc)?))?;
    ids.push(alloc, RowId::Key(key(alloc)?))?;
    Ok(ids)
}

#[test]
fn what_differs_is_not_equal(rt: HostRuntime) -> Result<(), Fail> {
    let ids = different(rt.alloc())?;
    for (i, a) in ids.as_slice().iter().enumerate() {
        for (j, b) in ids.as_slice().iter().enumerate() {
            assert_eq!(rt; *a == *b, i == j, "at {i} and {j}");
        }
    }
    assert!(rt; ColumnType::Int != ColumnType::Fixed);
    assert!(rt; ColumnType::Text == ColumnType::Text);
    Ok(())
}

#[test]
fn lists_answer_by_place(rt: HostRuntime) -> Result<(), Fail> {
    let alloc = rt.alloc();
    let mut numbers: ListOf<u32> = ListOf::new(alloc)?;
    numbers.push(alloc, 7)?;
    assert_eq!(rt; numbers.get(0).copied(), Some(7));
    assert_eq!(rt; numbers.get(1).copied(), None);
    let again = ListOf::from_vec(alloc, numbers.into_vec())?;
    assert_eq!(rt; again.as_slice(), [7].as_slice());
    let mut bytes = Bytes::new(alloc)?;
    bytes.push(alloc, 9)?;
    assert_eq!(rt; bytes.get(0), Some(9));
    bytes.clear();
    assert_eq!(rt; bytes.len(), 0);
    assert_eq!(rt; words(alloc, "é")?.get(1), Some(0xa9));
    Ok(())
}
