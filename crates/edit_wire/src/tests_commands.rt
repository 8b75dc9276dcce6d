//! Edits with spreadsheet cells and SELECT cells: read, refused, and written.
use crate::tests_text::{check, push, written_again};
use std::alloc::Global;
use std::process::Abort;
use std::test::Fail;
use value_types::{NoMemory, Words};

/// The line that appends a cell of these fields.
fn appended(alloc: Global, fields: &str) -> Result<Words, NoMemory> {
    let mut line = Words::new(alloc)?;
    push(
        alloc,
        &mut line,
        &[
            "{\"branch\":\"main\",\"cell\":{",
            fields,
            "},\"edit\":\"append\"}",
        ],
    )?;
    Ok(line)
}

// The line's edit is written as the line itself, whose fields are in the order of their names.
fn is_written_so(alloc: Global, fields: &str) -> Result<bool, Fail> {
    let line = appended(alloc, fields)?;
    let written = written_again(alloc, line.as_bytes())?;
    Ok(written.as_slice() == line.as_bytes())
}

// The cell of these fields is refused.
fn check_cell<R: Abort>(rt: &R, alloc: Global, fields: &str) -> Result<(), Fail> {
    let line = appended(alloc, fields)?;
    check(rt, alloc, line.as_bytes(), "BadEdit")
}

#[test]
fn a_command_is_read_and_written_as_it_stands(rt: HostRuntime) -> Result<(), Fail> {
    for fields in [
        "\"at\":0,\"dataset\":\"t\",\"name\":\"a\",\"type\":\"fixed\",\"vizual\":\"insert_column\"",
        "\"column\":\"a\",\"dataset\":\"t\",\"row\":\"@z\",\"value\":{\"fixed\":\"-0.5000\"},\
         \"vizual\":\"set_value\"",
        "\"dataset\":\"t\",\"vizual\":\"drop_dataset\"",
    ] {
        assert!(rt; is_written_so(rt.alloc(), fields)?, "{fields}");
    }
    for fields in [
        "\"dataset\":\"t\",\"vizual\":\"drop\"",
        "\"dataset\":\"t\",\"make\":\"t\",\"vizual\":\"drop_dataset\"",
        "\"dataset\":\"t\",\"load\":\"t\",\"vizual\":\"drop_dataset\"",
    ] {
        check_cell(&rt, rt.alloc(), fields)?;
    }
    Ok(())
}

#[test]
fn a_select_is_read_and_written_as_it_stands(rt: HostRuntime) -> Result<(), Fail> {
    for fields in [
        "\"into\":\"u\",\"sql\":\"SELECT * FROM t\"",
        "\"into\":\"u\",\"sql\":\"\"",
    ] {
        assert!(rt; is_written_so(rt.alloc(), fields)?, "{fields}");
    }
    for fields in [
        "\"sql\":\"SELECT * FROM t\"",
        "\"into\":\"u\",\"sql\":null",
        "\"into\":\"U\",\"sql\":\"\"",
        "\"fuel\":1,\"into\":\"u\",\"sql\":\"\"",
    ] {
        check_cell(&rt, rt.alloc(), fields)?;
    }
    Ok(())
}
