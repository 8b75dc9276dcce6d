//! Edits with load cells: read, refused, and written.
use crate::tests_text::{check, is_edit, push, repeated, said_again};
use std::alloc::Global;
use std::process::Abort;
use std::test::Fail;
use value_types::{NoMemory, Words};

#[test]
fn a_load_may_leave_out_its_types_and_its_repair(rt: HostRuntime) -> Result<(), Fail> {
    for (line, text) in [
        (
            "{\"edit\":\"append\",\"branch\":\"main\",\
             \"cell\":{\"load\":\"t\",\"file\":\"a.csv\"}}",
            "append main load t from a.csv as or null",
        ),
        (
            "{\"edit\":\"insert\",\"branch\":\"main\",\"at\":2,\"cell\":{\"load\":\"t\",\
             \"file\":\"a.csv\",\"types\":[\"guess\",\"bool\",\"int\",\"fixed\",\"text\"]}}",
            "insert main 2 load t from a.csv as guess bool int fixed text or null",
        ),
        (
            "{\"edit\":\"update\",\"branch\":\"b_2\",\"at\":1,\
             \"cell\":{\"repair\":\"zero\",\"load\":\"t\",\"file\":\"a b/\u{e9}\"}}",
            "update b_2 1 load t from a b/\u{e9} as or zero",
        ),
        (
            "{\"edit\":\"append\",\"branch\":\"main\",\"cell\":{\"load\":\"t\",\
             \"file\":\"a\",\"types\":[\"int\",\"guess\"],\"repair\":\"zero\"}}",
            "append main load t from a as int guess or zero",
        ),
        (
            "{\"edit\":\"append\",\"branch\":\"main\",\"cell\":{\"load\":\"t\",\
             \"file\":\"a\",\"types\":[],\"repair\":\"null\"}}",
            "append main load t from a as or null",
        ),
    ] {
        check(&rt, rt.alloc(), line.as_bytes(), text)?;
    }
    Ok(())
}

/// The line that appends a cell of these fields.
fn appended(alloc: Global, fields: &[&str]) -> Result<Words, NoMemory> {
    let mut line = Words::new(alloc)?;
    push(
        alloc,
        &mut line,
        &["{\"edit\":\"append\",\"branch\":\"main\",\"cell\":{"],
    )?;
    push(alloc, &mut line, fields)?;
    push(alloc, &mut line, &["}}"])?;
    Ok(line)
}

/// The cell of these fields is refused.
fn check_cell<R: Abort>(rt: &R, alloc: Global, fields: &str) -> Result<(), Fail> {
    let line = appended(alloc, &[fields])?;
    check(rt, alloc, line.as_bytes(), "BadEdit")
}

#[test]
fn cells_that_are_no_load_are_refused(rt: HostRuntime) -> Result<(), Fail> {
    for fields in [
        "\"load\":\"t\"",
        "\"file\":\"a\"",
        "\"load\":\"T\",\"file\":\"a\"",
        "\"load\":\"t\",\"file\":1",
        "\"load\":\"t\",\"file\":\"a\",\"types\":null",
        "\"load\":\"t\",\"file\":\"a\",\"types\":\"int\"",
        "\"load\":\"t\",\"file\":\"a\",\"types\":[null]",
        "\"load\":\"t\",\"file\":\"a\",\"types\":[\"INT\"]",
        "\"load\":\"t\",\"file\":\"a\",\"types\":[\"int\",\"date\"]",
        "\"load\":\"t\",\"file\":\"a\",\"repair\":null",
        "\"load\":\"t\",\"file\":\"a\",\"repair\":\"Zero\"",
        "\"load\":\"t\",\"file\":\"a\",\"fuel\":1",
        "\"load\":\"t\",\"file\":\"a\",\"types\":[],\"repair\":\"null\",\"fuel\":1",
        "\"load\":\"t\",\"file\":\"a\",\"make\":\"t\"",
        "\"make\":\"t\",\"columns\":[[\"a\",\"int\"]],\"rows\":[],\"repair\":\"null\"",
    ] {
        check_cell(&rt, rt.alloc(), fields)?;
    }
    Ok(())
}

/// The line of a load whose file has this letter so many times.
fn load_of_file(alloc: Global, letter: &str, count: usize) -> Result<Words, NoMemory> {
    let mut file = Words::new(alloc)?;
    for _ in 0..count {
        file.push_text(alloc, letter)?;
    }
    appended(alloc, &["\"load\":\"t\",\"file\":\"", file.as_text(), "\""])
}

#[test]
fn a_file_has_1_to_255_bytes(rt: HostRuntime) -> Result<(), Fail> {
    let alloc = rt.alloc();
    // The second letter takes two bytes.
    for (letter, count, taken) in [
        ("x", 0usize, false),
        ("x", 1, true),
        ("x", 255, true),
        ("x", 256, false),
        ("\u{e9}", 127, true),
        ("\u{e9}", 128, false),
    ] {
        let line = load_of_file(alloc, letter, count)?;
        assert!(rt;
            is_edit(alloc, line.as_bytes()) == taken,
            "{count} times {letter}"
        );
    }
    Ok(())
}

/// The line of a load with so many types to be guessed.
fn load_of_guesses(alloc: Global, count: usize) -> Result<Words, NoMemory> {
    let types = repeated(alloc, "\"guess\"", count)?;
    appended(
        alloc,
        &[
            "\"load\":\"t\",\"file\":\"a\",\"types\":[",
            types.as_text(),
            "]",
        ],
    )
}

#[test]
fn a_load_has_at_most_32_types(rt: HostRuntime) -> Result<(), Fail> {
    let alloc = rt.alloc();
    for (count, taken) in [(0usize, true), (32, true), (33, false)] {
        let line = load_of_guesses(alloc, count)?;
        assert!(rt; is_edit(alloc, line.as_bytes()) == taken, "{count} types");
    }
    Ok(())
}

#[test]
fn each_kind_of_edit_with_a_load_is_written_and_read_back_equal(
    rt: HostRuntime,
) -> Result<(), Fail> {
    let alloc = rt.alloc();
    for (line, text) in [
        (
            "{\"edit\":\"append\",\"branch\":\"main\",\
             \"cell\":{\"load\":\"t\",\"file\":\"a\\n\\\"\u{e9}.csv\"}}",
            "append main load t from a\n\"\u{e9}.csv as or null",
        ),
        (
            "{\"edit\":\"insert\",\"branch\":\"main\",\"at\":0,\"cell\":{\"load\":\"t\",\
             \"file\":\"a\",\"types\":[\"guess\",\"bool\",\"int\",\"fixed\",\"text\"]}}",
            "insert main 0 load t from a as guess bool int fixed text or null",
        ),
        (
            "{\"edit\":\"update\",\"branch\":\"main\",\"at\":4294967295,\
             \"cell\":{\"load\":\"t\",\"file\":\"a\",\"repair\":\"zero\"}}",
            "update main 4294967295 load t from a as or zero",
        ),
    ] {
        let again = said_again(alloc, line.as_bytes())?;
        assert!(rt;
            again.as_text() == text,
            "{line} was written as {}",
            again.as_text()
        );
    }
    Ok(())
}
