//! Tests of what the shelf tells of a file, at the limit of its bytes.
use crate::{Told, fetch};
use outside_io::{Fetched, Files, MemoryShelf, Numbers};
use std::alloc::Global;
use std::process::Abort;
use std::test::Fail;
use value_types::{Bytes, NoMemory, Words};

/// Puts a file of so many zeros on a list.
fn push_zeros(alloc: Global, files: &mut Files, name: &str, length: u32) -> Result<(), NoMemory> {
    let mut words = Words::new(alloc)?;
    words.push_text(alloc, name)?;
    let mut bytes = Bytes::new(alloc)?;
    for _ in 0..length {
        bytes.push(alloc, 0)?;
    }
    files.push(alloc, (words, bytes))
}

/// A shelf that fails at its fifth call.
fn shelf(alloc: Global) -> Result<MemoryShelf, NoMemory> {
    let mut files = Files::new(alloc)?;
    push_zeros(alloc, &mut files, "empty", 0)?;
    push_zeros(alloc, &mut files, "longest", 1_048_576)?;
    push_zeros(alloc, &mut files, "longer", 1_048_577)?;
    let mut fails = Numbers::new(alloc)?;
    fails.push(alloc, 5)?;
    Ok(MemoryShelf::new(files, fails))
}

/// What is told, in a word, and of a file its length.
fn said(told: Told) -> (&'static str, usize) {
    match told {
        Told::NotAsked => ("not asked", 0),
        Told::Failed => ("failed", 0),
        Told::Got(Fetched::Bytes(bytes)) => ("bytes", bytes.len()),
        Told::Got(Fetched::Missing) => ("missing", 0),
        Told::Got(Fetched::TooLong) => ("too long", 0),
    }
}

fn tells(
    rt: &impl Abort,
    alloc: Global,
    shelf: &mut MemoryShelf,
    file: &str,
    want: (&str, usize),
) -> Result<(), NoMemory> {
    let (word, length) = said(fetch(alloc, file, shelf)?);
    assert_eq!(rt; word, want.0);
    assert_eq!(rt; length, want.1);
    Ok(())
}

#[test]
fn a_file_is_fetched_up_to_the_limit(rt: HostRuntime) -> Result<(), Fail> {
    let alloc = rt.alloc();
    let mut shelf = shelf(alloc)?;
    for (file, word, length) in [
        ("empty", "bytes", 0),
        ("longest", "bytes", 1_048_576),
        ("longer", "too long", 0),
        ("none", "missing", 0),
        ("empty", "failed", 0),
        ("empty", "bytes", 0),
    ] {
        tells(&rt, alloc, &mut shelf, file, (word, length))?;
    }
    Ok(())
}
