//! Lines with the edits that they are, the refusals of others, and edits that are written.
use crate::tests_text::{check, is_edit, push, repeated, said_again};
use std::alloc::Global;
use std::process::Abort;
use std::test::Fail;
use value_types::{NoMemory, Words};

#[test]
fn edits_are_read(rt: HostRuntime) -> Result<(), Fail> {
    for (line, text) in [
        (
            "{\"edit\":\"append\",\"branch\":\"main\",\"cell\":{\"make\":\"t\",\
             \"columns\":[[\"a\",\"int\"],[\"b\",\"text\"]],\"rows\":[[1,\"x\"],[2,null]]}}",
            "append main make t a int b text; #1 1 \"x\"; #2 2 null",
        ),
        (
            " { \"cell\" : {\"rows\":[], \"columns\":[[\"a\",\"bool\"]], \"make\":\"t\"},\
             \"at\":0, \"branch\":\"b_2\", \"edit\":\"insert\" } ",
            "insert b_2 0 make t a bool",
        ),
        (
            "{\"edit\":\"update\",\"branch\":\"main\",\"at\":4294967295,\"cell\":{\"make\":\"t\",\
             \"columns\":[[\"a\",\"fixed\"]],\
             \"rows\":[[3],[{\"fixed\":\"3\"}],[{\"fixed\":\"-0.5\"}],[null]]}}",
            "update main 4294967295 make t a fixed; #1 3.0000; #2 3.0000; #3 -0.5000; #4 null",
        ),
        (
            "{\"branch\":\"main\",\"at\":7,\"edit\":\"delete\"}",
            "delete main 7",
        ),
        (
            "{\"edit\":\"branch\",\"branch\":\"b\",\"from\":1}",
            "branch b 1",
        ),
    ] {
        check(&rt, rt.alloc(), line.as_bytes(), text)?;
    }
    Ok(())
}

#[test]
fn lines_without_an_edit_are_refused(rt: HostRuntime) -> Result<(), Fail> {
    for line in [
        b"".as_slice(),
        b"{\"edit\":\"app",
        b"{\"edit\":\"delete\",\"branch\":\"main\",\"at\":1}}",
        b"\"\xff\"",
        b"\xef\xbb\xbf{}",
    ] {
        check(&rt, rt.alloc(), line, "BadJson")?;
    }
    for line in [
        "null",
        "[]",
        "{}",
        "{\"edit\":\"remove\",\"branch\":\"main\",\"at\":1}",
        "{\"edit\":\"delete\",\"branch\":\"main\"}",
        "{\"edit\":\"delete\",\"branch\":\"main\",\"at\":1,\"from\":1}",
        "{\"edit\":\"delete\",\"branch\":\"main\",\"at\":1,\"cell\":null}",
        "{\"edit\":\"delete\",\"branch\":\"Main\",\"at\":1}",
        "{\"edit\":\"delete\",\"branch\":\"\",\"at\":1}",
        "{\"edit\":\"delete\",\"branch\":\"abcdefghijklmnopqrstuvwxyz0123456\",\"at\":1}",
        "{\"edit\":\"delete\",\"branch\":\"main\",\"at\":4294967296}",
        "{\"edit\":\"delete\",\"branch\":\"main\",\"at\":-1}",
        "{\"edit\":\"delete\",\"branch\":\"main\",\"at\":1.0}",
        "{\"edit\":\"delete\",\"branch\":\"main\",\"at\":1e2}",
        "{\"edit\":\"delete\",\"branch\":\"main\",\"at\":\"1\"}",
        "{\"edit\":\"branch\",\"branch\":\"b\",\"at\":1}",
        "{\"edit\":\"append\",\"branch\":\"main\",\"cell\":\"t\"}",
    ] {
        check(&rt, rt.alloc(), line.as_bytes(), "BadEdit")?;
    }
    Ok(())
}

#[test]
fn each_kind_of_edit_is_written_and_read_back_equal(rt: HostRuntime) -> Result<(), Fail> {
    let alloc = rt.alloc();
    for (line, text) in [
        (
            "{\"edit\":\"append\",\"branch\":\"main\",\"cell\":{\"make\":\"t\",\
             \"columns\":[[\"a\",\"bool\"],[\"b\",\"int\"],[\"c\",\"fixed\"],[\"d\",\"text\"]],\
             \"rows\":[[true,-7,{\"fixed\":\"2.5\"},\"x\\n\\\"\"],[null,null,3,\"\"]]}}",
            "append main make t a bool b int c fixed d text; \
             #1 true -7 2.5000 \"x\\n\\\"\"; #2 null null 3.0000 \"\"",
        ),
        (
            "{\"edit\":\"insert\",\"branch\":\"b_2\",\"at\":0,\
             \"cell\":{\"make\":\"t\",\"columns\":[[\"a\",\"bool\"]],\"rows\":[]}}",
            "insert b_2 0 make t a bool",
        ),
        (
            "{\"edit\":\"update\",\"branch\":\"main\",\"at\":4294967295,\"cell\":{\"make\":\"t\",\
             \"columns\":[[\"a\",\"fixed\"]],\"rows\":[[{\"fixed\":\"-922337203685477.5808\"}]]}}",
            "update main 4294967295 make t a fixed; #1 -922337203685477.5808",
        ),
        (
            "{\"edit\":\"delete\",\"branch\":\"main\",\"at\":7}",
            "delete main 7",
        ),
        (
            "{\"edit\":\"branch\",\"branch\":\"b\",\"from\":1}",
            "branch b 1",
        ),
    ] {
        let again = said_again(alloc, line.as_bytes())?;
        assert!(rt;
            again.as_text() == text,
            "{line} was written as {}",
            again.as_text()
        );
    }
    Ok(())
}

/// The line that appends a make cell of these columns and rows.
fn appended(alloc: Global, columns: &str, rows: &str) -> Result<Words, NoMemory> {
    let mut line = Words::new(alloc)?;
    push(
        alloc,
        &mut line,
        &[
            "{\"edit\":\"append\",\"branch\":\"main\",\"cell\":{\"make\":\"t\",\"columns\":[",
            columns,
            "],\"rows\":[",
            rows,
            "]}}",
        ],
    )?;
    Ok(line)
}

/// The make cell of these columns and rows gives this text.
fn check_rows<R: Abort>(
    rt: &R,
    alloc: Global,
    columns: &str,
    rows: &str,
    text: &str,
) -> Result<(), Fail> {
    let line = appended(alloc, columns, rows)?;
    check(rt, alloc, line.as_bytes(), text)
}

#[test]
fn values_fit_their_columns(rt: HostRuntime) -> Result<(), Fail> {
    let alloc = rt.alloc();
    for (columns, rows, text) in [
        (
            "[\"a\",\"bool\"]",
            "[true],[false]",
            "a bool; #1 true; #2 false",
        ),
        (
            "[\"a\",\"int\"]",
            "[9223372036854775807],[-9223372036854775808]",
            "a int; #1 9223372036854775807; #2 -9223372036854775808",
        ),
        (
            "[\"a\",\"fixed\"]",
            "[922337203685477],[{\"fixed\":\"-922337203685477.5808\"}]",
            "a fixed; #1 922337203685477.0000; #2 -922337203685477.5808",
        ),
    ] {
        let text = format!(in alloc; "append main make t {text}")?;
        check_rows(&rt, alloc, columns, rows, text.as_str())?;
    }
    for (columns, rows) in [
        ("", ""),
        ("[\"a\",\"INT\"]", ""),
        ("[\"a\"]", ""),
        ("[\"a\",\"int\",1]", ""),
        ("[\"a\",\"int\"],[\"a\",\"text\"]", ""),
        ("[\"a\",\"int\"]", "1"),
        ("[\"a\",\"int\"]", "[]"),
        ("[\"a\",\"int\"]", "[1,2]"),
        ("[\"a\",\"int\"]", "[\"1\"]"),
        ("[\"a\",\"int\"]", "[1.0]"),
        ("[\"a\",\"int\"]", "[9223372036854775808]"),
        ("[\"a\",\"int\"]", "[{\"fixed\":\"1\"}]"),
        ("[\"a\",\"fixed\"]", "[922337203685478]"),
        ("[\"a\",\"fixed\"]", "[1.5]"),
        ("[\"a\",\"fixed\"]", "[{\"fixed\":\"1.23456\"}]"),
        ("[\"a\",\"fixed\"]", "[{\"fixed\":1}]"),
        ("[\"a\",\"fixed\"]", "[{\"fixed\":\"1\",\"b\":1}]"),
        ("[\"a\",\"text\"]", "[1]"),
        ("[\"a\",\"bool\"]", "[[]]"),
    ] {
        check_rows(&rt, alloc, columns, rows, "BadEdit")?;
    }
    Ok(())
}

fn is_taken(alloc: Global, columns: &str, row: &str, count: usize) -> Result<bool, NoMemory> {
    let rows = repeated(alloc, row, count)?;
    let line = appended(alloc, columns, rows.as_text())?;
    Ok(is_edit(alloc, line.as_bytes()))
}

/// A row of one text of so many bytes.
fn text_row(alloc: Global, size: usize) -> Result<Words, NoMemory> {
    let mut row = Words::new(alloc)?;
    row.push_text(alloc, "[\"")?;
    for _ in 0..size {
        row.push_text(alloc, "x")?;
    }
    row.push_text(alloc, "\"]")?;
    Ok(row)
}

#[test]
fn a_table_is_within_the_limits_of_a_dataset(rt: HostRuntime) -> Result<(), Fail> {
    let alloc = rt.alloc();
    assert!(rt; is_taken(alloc, "[\"a\",\"int\"]", "[1]", 65_536)?);
    assert!(rt; !is_taken(alloc, "[\"a\",\"int\"]", "[1]", 65_537)?);
    let two = "[\"a\",\"int\"],[\"b\",\"int\"]";
    assert!(rt; is_taken(alloc, two, "[1,2]", 32_768)?);
    assert!(rt; !is_taken(alloc, two, "[1,2]", 32_769)?);
    // The id of the one row is `#1`, two bytes.
    for (size, taken) in [(1_048_574, true), (1_048_575, false)] {
        let row = text_row(alloc, size)?;
        assert!(rt; is_taken(alloc, "[\"a\",\"text\"]", row.as_text(), 1)? == taken);
    }
    Ok(())
}

/// So many columns of Ints, each with a name of its own.
fn int_columns(alloc: Global, count: u32) -> Result<Words, NoMemory> {
    let mut columns = Words::new(alloc)?;
    for n in 0..count {
        let comma = if n == 0 { "" } else { "," };
        let column = format!(in alloc; "{comma}[\"c{n}\",\"int\"]")?;
        columns.push_text(alloc, column.as_str())?;
    }
    Ok(columns)
}

#[test]
fn a_cell_has_at_most_32_columns(rt: HostRuntime) -> Result<(), Fail> {
    let alloc = rt.alloc();
    for (count, taken) in [(1, true), (32, true), (33, false)] {
        let columns = int_columns(alloc, count)?;
        assert!(rt;
            is_taken(alloc, columns.as_text(), "", 0)? == taken,
            "{count} columns"
        );
    }
    Ok(())
}

/// Arrays in arrays, so many deep.
fn nested(alloc: Global, depth: usize) -> Result<Words, NoMemory> {
    let mut line = Words::new(alloc)?;
    for _ in 0..depth {
        line.push_text(alloc, "[")?;
    }
    for _ in 0..depth {
        line.push_text(alloc, "]")?;
    }
    Ok(line)
}

#[test]
fn brackets_nest_at_most_127_deep(rt: HostRuntime) -> Result<(), Fail> {
    for (depth, text) in [(127, "BadEdit"), (128, "BadJson")] {
        let line = nested(rt.alloc(), depth)?;
        check(&rt, rt.alloc(), line.as_bytes(), text)?;
    }
    Ok(())
}
