//! Lines with what a first look at them tells, and whether they are JSON, by hand.
use crate::{Glance, glance_at, json_of};
use std::alloc::Global;
use std::process::Abort;
use std::test::Fail;
use value_types::{Bytes, NoMemory};

/// The text at the field `edit`, in quotes, or why there is none.
fn told(alloc: Global, line: &[u8]) -> Result<Bytes, NoMemory> {
    match glance_at(alloc, line, "edit")? {
        Glance::NotJson => Bytes::from_slice(alloc, b"not JSON"),
        Glance::NoText => Bytes::from_slice(alloc, b"no text"),
        Glance::Text(text) => {
            let mut quoted = Bytes::from_slice(alloc, b"'")?;
            quoted.push_slice(alloc, text.as_slice())?;
            quoted.push(alloc, b'\'')?;
            Ok(quoted)
        }
    }
}

/// The line is told as this, and it is JSON exactly where that isn't `not JSON`.
fn check<R: Abort>(rt: &R, alloc: Global, line: &[u8], want: &str) -> Result<(), Fail> {
    let text = String::from_utf8_lossy(alloc, line)?;
    let got = told(alloc, line)?;
    assert!(rt;
        got.as_slice() == want.as_bytes(),
        "{} isn't told as {want}",
        text.as_str()
    );
    let is_json = json_of(alloc, line)?.is_some();
    assert!(rt;
        is_json == (want != "not JSON"),
        "{} is JSON: {is_json}",
        text.as_str()
    );
    Ok(())
}

#[test]
fn a_line_is_told_by_its_field(rt: HostRuntime) -> Result<(), Fail> {
    for (line, want) in [
        (
            "{\"edit\":\"append\",\"cell\":[1,{\"a\":null}]}",
            "'append'",
        ),
        (
            " { \"b\" : true , \"\\u0065dit\" : \"a\\nb\\u00e9\" } ",
            "'a\nb\u{e9}'",
        ),
        ("{\"edit\":\"\"}", "''"),
        ("{\"edit\":1,\"edit\":\"b\",\"Edit\":\"c\"}", "'b'"),
        ("{\"edit\":\"b\",\"edit\":1}", "no text"),
        ("{\"cell\":{\"edit\":\"append\"}}", "no text"),
        ("[\"edit\",\"append\"]", "no text"),
        ("\"edit\"", "no text"),
        ("{}", "no text"),
        ("{\"edit\":\"append\"}}", "not JSON"),
        ("{\"edit\":\"append\"", "not JSON"),
        ("{\"edit\":\"append\",}", "not JSON"),
        ("{\"edit\":\"\\ud800\"}", "not JSON"),
        ("", "not JSON"),
    ] {
        check(&rt, rt.alloc(), line.as_bytes(), want)?;
    }
    check(&rt, rt.alloc(), b"{\"edit\":\"\xff\"}", "not JSON")?;
    check(&rt, rt.alloc(), b"\xef\xbb\xbf{\"edit\":\"a\"}", "not JSON")
}

#[test]
fn a_number_past_all_floats_is_no_json(rt: HostRuntime) -> Result<(), Fail> {
    for (number, want) in [
        ("1e308", "'a'"),
        ("-1.7976931348623157e308", "'a'"),
        ("18446744073709551616", "'a'"),
        ("-0", "'a'"),
        ("1e-400", "'a'"),
        ("1e309", "not JSON"),
        ("-1e309", "not JSON"),
        ("01", "not JSON"),
    ] {
        let line = format!(in rt.alloc(); "{{\"edit\":\"a\",\"n\":[{number}]}}")?;
        check(&rt, rt.alloc(), line.as_bytes(), want)?;
    }
    Ok(())
}

/// So many arrays, each in another.
fn nested(alloc: Global, depth: usize) -> Result<Bytes, NoMemory> {
    let mut line = Bytes::new(alloc)?;
    for _ in 0..depth {
        line.push(alloc, b'[')?;
    }
    for _ in 0..depth {
        line.push(alloc, b']')?;
    }
    Ok(line)
}

#[test]
fn arrays_nest_127_deep(rt: HostRuntime) -> Result<(), Fail> {
    let alloc = rt.alloc();
    check(&rt, alloc, nested(alloc, 127)?.as_slice(), "no text")?;
    check(&rt, alloc, nested(alloc, 128)?.as_slice(), "not JSON")
}
