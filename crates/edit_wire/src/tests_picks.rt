//! Files with the picks that they are, and the line that is none.
use crate::tests_text::push;
use crate::{PicksFault, picks_of};
use dataset_types::{Choice, Site};
use std::alloc::Global;
use std::process::Abort;
use std::test::Fail;
use value_types::{NoMemory, Words, literal_text};

fn choice_text(alloc: Global, choice: Option<&Choice>) -> Result<Words, NoMemory> {
    let mut out = Words::new(alloc)?;
    match choice {
        Some(Choice::Value(value)) => literal_text(alloc, value, &mut out)?,
        Some(Choice::Keep(true)) => out.push_text(alloc, "kept")?,
        Some(Choice::Keep(false)) => out.push_text(alloc, "dropped")?,
        None => out.push_text(alloc, "nothing")?,
    }
    Ok(out)
}

fn line_text(alloc: Global, number: u32) -> Result<Words, NoMemory> {
    let mut out = Words::new(alloc)?;
    let text = format!(in alloc; "line {number}")?;
    out.push_text(alloc, text.as_str())?;
    Ok(out)
}

/// What a file chooses at a site of a cell, or the line that is no pick.
fn chosen(alloc: Global, file: &str, cell: u32, site: &Site) -> Result<Words, NoMemory> {
    match picks_of(alloc, file.as_bytes()) {
        Ok(picks) => choice_text(alloc, picks.choice(cell, site)),
        Err(PicksFault::BadLine(number)) => line_text(alloc, number),
        Err(PicksFault::NoMemory) => Err(NoMemory),
    }
}

fn check<R: Abort>(
    rt: &R,
    alloc: Global,
    file: &str,
    cell: u32,
    site: &Site,
    text: &str,
) -> Result<(), Fail> {
    let chosen = chosen(alloc, file, cell, site)?;
    assert!(rt;
        chosen.as_text() == text,
        "cell {cell}, {site:?}: {} and not {text}",
        chosen.as_text()
    );
    Ok(())
}

#[test]
fn picks_of_each_form_are_read_and_blank_lines_skipped(rt: HostRuntime) -> Result<(), Fail> {
    let file = "{\"cell\":2,\"record\":5,\"column\":1,\"value\":{\"fixed\":\"3\"}}\r\n\
        \n \t\r\n\
        {\"cell\":2,\"record\":5,\"column\":2,\"value\":-7}\n\
        {\"keep\":false,\"record\":7,\"cell\":2}\r\n\
        {\"cell\":2,\"record\":8,\"keep\":false}\n\
        {\"cell\":2,\"record\":8,\"keep\":true}\n\
        {\"cell\":4294967295,\"call\":4294967295,\"value\":null}\n\
        {\"cell\":3,\"call\":1,\"value\":\"x\"}";
    let last = u32::MAX;
    for (cell, site, text) in [
        (
            2,
            Site::Field {
                number: 5,
                column: 1,
            },
            "3.0000",
        ),
        (
            2,
            Site::Field {
                number: 5,
                column: 2,
            },
            "-7",
        ),
        (
            2,
            Site::Field {
                number: 5,
                column: 3,
            },
            "nothing",
        ),
        (
            1,
            Site::Field {
                number: 5,
                column: 1,
            },
            "nothing",
        ),
        (2, Site::Record { number: 5 }, "nothing"),
        (2, Site::Record { number: 7 }, "dropped"),
        (2, Site::Record { number: 8 }, "kept"),
        (last, Site::Call { call: last }, "null"),
        (3, Site::Call { call: 1 }, "\"x\""),
    ] {
        check(&rt, rt.alloc(), file, cell, &site, text)?;
    }
    check(&rt, rt.alloc(), "", 1, &Site::Call { call: 1 }, "nothing")
}

/// Texts, one after the other.
fn joined(alloc: Global, texts: &[&str]) -> Result<Words, NoMemory> {
    let mut all = Words::new(alloc)?;
    push(alloc, &mut all, texts)?;
    Ok(all)
}

#[test]
fn the_first_line_that_is_no_pick_is_named(rt: HostRuntime) -> Result<(), Fail> {
    let alloc = rt.alloc();
    for line in [
        "x",
        "{",
        "null",
        "{}",
        "\u{feff}{\"cell\":1,\"call\":1,\"value\":1}",
        "{\"cell\":1,\"call\":1,\"value\":1} {}",
        "{\"cell\":1,\"record\":0,\"keep\":true}",
        "{\"cell\":1,\"record\":4294967296,\"keep\":true}",
        "{\"cell\":0,\"record\":1,\"keep\":true}",
        "{\"cell\":1,\"record\":1,\"column\":0,\"value\":1}",
        "{\"cell\":1,\"call\":0,\"value\":1}",
        "{\"cell\":1,\"call\":1.0,\"value\":1}",
        "{\"cell\":1,\"record\":1,\"keep\":1}",
        "{\"cell\":1,\"record\":1,\"keep\":\"true\"}",
        "{\"cell\":1,\"record\":1,\"keep\":null}",
        "{\"cell\":1,\"record\":1,\"value\":1}",
        "{\"cell\":1,\"record\":1,\"column\":1,\"keep\":true}",
        "{\"cell\":1,\"call\":1,\"value\":1.5}",
        "{\"cell\":1,\"call\":1,\"value\":{\"fixed\":\"1.23456\"}}",
        "{\"cell\":1,\"record\":1,\"keep\":true,\"value\":1}",
        "{\"cell\":1,\"call\":1,\"value\":1,\"keep\":true}",
        "{\"cell\":1,\"record\":1,\"column\":1,\"value\":1,\"call\":1}",
    ] {
        let good = "{\"cell\":1,\"call\":1,\"value\":1}\n";
        let file = joined(alloc, &[good, "\n", line, "\n", good, "x\n"])?;
        check(
            &rt,
            alloc,
            file.as_text(),
            1,
            &Site::Call { call: 1 },
            "line 3",
        )?;
    }
    Ok(())
}

/// So many spaces, and then texts.
fn after_spaces(alloc: Global, spaces: usize, texts: &[&str]) -> Result<Words, NoMemory> {
    let mut all = Words::new(alloc)?;
    for _ in 0..spaces {
        all.push_text(alloc, " ")?;
    }
    push(alloc, &mut all, texts)?;
    Ok(all)
}

#[test]
fn a_pick_has_at_most_65_536_bytes_and_a_blank_line_any_number(
    rt: HostRuntime,
) -> Result<(), Fail> {
    let alloc = rt.alloc();
    let pick = "{\"cell\":1,\"call\":1,\"value\":true}";
    for (spaces, line, text) in [
        (65_536 - pick.len(), pick, "true"),
        (65_537 - pick.len(), pick, "line 1"),
        (65_537, "", "true"),
    ] {
        let file = after_spaces(alloc, spaces, &[line, "\n", pick])?;
        check(&rt, alloc, file.as_text(), 1, &Site::Call { call: 1 }, text)?;
    }
    Ok(())
}
