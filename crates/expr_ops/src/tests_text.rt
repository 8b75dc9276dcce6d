//! LIKE, CAST and texts. Expected values are worked out by hand from docs/EXPRESSIONS.md.
use crate::tests::{fails, is};
use crate::{binary, cast, like, unary};
use cell_errors::{CellError, EvalFault};
use expr_lang::{BinaryOp, UnaryOp};
use std::alloc::Global;
use std::process::Abort;
use value_types::{ColumnType, NoMemory, Value, Words};

fn text(alloc: Global, text: &str) -> Result<Value, NoMemory> {
    let mut words = Words::new(alloc)?;
    words.push_text(alloc, text)?;
    Ok(Value::Text(words))
}

#[test]
fn like_counts_characters(rt: HostRuntime) {
    let alloc = rt.alloc();
    for (of, pattern, want) in [
        ("", "", true),
        ("", "%", true),
        ("", "_", false),
        ("a", "", false),
        ("née", "n_e", true),
        ("née", "n__e", false),
        ("日本語", "___", true),
        ("日本語", "日%", true),
        ("日本語", "%語", true),
        ("日本語", "%本%", true),
        ("日本語", "____", false),
        ("é", "e", false),
        ("abcabc", "%abc", true),
        ("abcab", "%abc", false),
        ("aXbXc", "a%b%c", true),
        ("abc", "ABC", false),
        ("50%", "50\\%", false),
        ("a\nb", "a_b", true),
        ("mississippi", "%iss%ip%i", true),
        ("mississippi", "%iss%ip%s", false),
    ] {
        if let (Ok(value), Ok(other)) = (text(alloc, of), text(alloc, pattern)) {
            let got = like(alloc, &value, &other);
            assert!(rt; is(got, &Value::Bool(want)), "at {of} {pattern}");
        } else {
            assert!(rt; false, "no memory");
        }
    }
}

fn cast_text(alloc: Global, of: &str, kind: ColumnType) -> Result<Value, EvalFault> {
    cast(alloc, text(alloc, of)?, kind)
}

#[test]
fn casts_go_each_way(rt: HostRuntime) {
    let alloc = rt.alloc();
    let (int, fixed) = (ColumnType::Int, ColumnType::Fixed);
    assert!(rt; is(cast(alloc, Value::Fixed(-29_999), int), &Value::Int(-2)));
    assert!(rt; is(cast(alloc, Value::Int(2), fixed), &Value::Fixed(20_000)));
    let wide = cast(alloc, Value::Int(922_337_203_685_478), fixed);
    assert!(rt; fails(wide, CellError::Overflow));
    assert!(rt; fails(cast(alloc, Value::Bool(true), int), CellError::TypeFault));
    assert!(rt;
        fails(
            cast(alloc, Value::Int(1), ColumnType::Bool),
            CellError::TypeFault
        )
    );
    assert!(rt; is(cast(alloc, Value::Null, ColumnType::Text), &Value::Null));
    assert!(rt; is(cast_text(alloc, "-42", int), &Value::Int(-42)));
    assert!(rt; is(cast_text(alloc, "1.5", fixed), &Value::Fixed(15_000)));
    assert!(rt;
        is(
            cast_text(alloc, "TRUE", ColumnType::Bool),
            &Value::Bool(true)
        )
    );
}

#[test]
fn texts_are_read_and_written(rt: HostRuntime) {
    let alloc = rt.alloc();
    let (int, fixed) = (ColumnType::Int, ColumnType::Fixed);
    for (of, kind) in [
        (" 1", int),
        ("1.5", int),
        ("9223372036854775808", int),
        ("yes", ColumnType::Bool),
        ("1.23456", fixed),
    ] {
        assert!(rt;
            fails(cast_text(alloc, of, kind), CellError::BadCast),
            "at {of}"
        );
    }
    for (value, want) in [
        (Value::Bool(false), "false"),
        (Value::Int(-7), "-7"),
        (Value::Fixed(25_000), "2.5000"),
    ] {
        match cast(alloc, value, ColumnType::Text) {
            Ok(Value::Text(words)) => assert_eq!(rt; words.as_text(), want),
            _ => assert!(rt; false, "at {want}"),
        }
    }
}

fn unary_text(alloc: Global, op: UnaryOp, of: &str) -> Result<Value, EvalFault> {
    let value = text(alloc, of)?;
    unary(alloc, op, &value)
}

#[test]
fn texts_are_counted_trimmed_and_joined(rt: HostRuntime) {
    let alloc = rt.alloc();
    assert!(rt; is(unary_text(alloc, UnaryOp::Length, "日本語"), &Value::Int(3)));
    for (of, want) in [("  a b ", "a b"), ("   ", ""), ("\ta", "\ta"), (" é ", "é")] {
        match unary_text(alloc, UnaryOp::Trim, of) {
            Ok(Value::Text(words)) => assert_eq!(rt; words.as_text(), want),
            _ => assert!(rt; false, "at {want}"),
        }
    }
    let of = binary(alloc, BinaryOp::Concat, Value::Int(1), &Value::Fixed(5_000));
    match of {
        Ok(Value::Text(words)) => assert_eq!(rt; words.as_text(), "10.5000"),
        _ => assert!(rt; false, "no text"),
    }
    assert!(rt;
        fails(
            unary(alloc, UnaryOp::Length, &Value::Int(1)),
            CellError::TypeFault
        )
    );
    assert!(rt;
        fails(
            unary(alloc, UnaryOp::Trim, &Value::Bool(true)),
            CellError::TypeFault
        )
    );
    assert!(rt;
        fails(
            unary(alloc, UnaryOp::Not, &Value::Int(1)),
            CellError::TypeFault
        )
    );
}

// A text of 2 to the power of so many letters, joined with itself so often.
fn doubled(alloc: Global, times: u8) -> Result<Value, EvalFault> {
    let mut value = text(alloc, "a")?;
    for _ in 0..times {
        let again = value.copy(alloc)?;
        value = binary(alloc, BinaryOp::Concat, value, &again)?;
    }
    Ok(value)
}

#[test]
fn a_joined_text_has_at_most_65536_bytes(rt: HostRuntime) {
    let alloc = rt.alloc();
    match doubled(alloc, 16) {
        Ok(Value::Text(words)) => assert_eq!(rt; words.len(), 65_536),
        _ => assert!(rt; false, "no text"),
    }
    match doubled(alloc, 16) {
        Ok(value) => {
            let more = binary(alloc, BinaryOp::Concat, value, &Value::Int(1));
            assert!(rt; fails(more, CellError::TooLarge));
        }
        Err(_) => assert!(rt; false, "no text"),
    }
}

/// A text of so many letters, with a space at each end.
fn padded(alloc: Global, letters: u32) -> Result<Value, NoMemory> {
    let mut words = Words::new(alloc)?;
    words.push_char(alloc, ' ')?;
    for _ in 0..letters {
        words.push_char(alloc, 'a')?;
    }
    words.push_char(alloc, ' ')?;
    Ok(Value::Text(words))
}

/// The length of a long text that is trimmed and cast.
fn trimmed_length(alloc: Global) -> Result<usize, EvalFault> {
    let trimmed = unary(alloc, UnaryOp::Trim, &padded(alloc, 65_537)?)?;
    match cast(alloc, trimmed, ColumnType::Text)? {
        Value::Text(words) => Ok(words.len()),
        _ => Ok(0),
    }
}

#[test]
fn a_longer_text_is_no_error_of_trim_and_cast(rt: HostRuntime) {
    let length = trimmed_length(rt.alloc());
    assert!(rt; matches!(length, Ok(65_537)));
}

#[test]
fn like_has_no_answer_where_a_side_is_null(rt: HostRuntime) {
    let alloc = rt.alloc();
    match text(alloc, "a") {
        Ok(letter) => {
            assert!(rt; is(like(alloc, &Value::Null, &letter), &Value::Null));
            assert!(rt; is(like(alloc, &letter, &Value::Null), &Value::Null));
        }
        Err(_) => assert!(rt; false, "no memory"),
    }
}
