//! Each command once more, and names that are or aren't distinct.
use crate::{Command, DistinctNames, SortName, SortNames};
use std::alloc::Global;
use std::test::*;
use value_types::{Name, Names, NoMemory, Value, Words, read_name};

fn name(text: &str) -> Result<Name, NoMemory> {
    read_name(text.as_bytes()).ok_or(NoMemory)
}

fn names(alloc: Global, texts: &[&str]) -> Result<Names, NoMemory> {
    let mut names = Names::new(alloc)?;
    for text in texts {
        names.push(alloc, name(text)?)?;
    }
    Ok(names)
}

fn words(alloc: Global, text: &str) -> Result<Words, NoMemory> {
    let mut words = Words::new(alloc)?;
    words.push_text(alloc, text)?;
    Ok(words)
}

#[test]
fn names_are_distinct_where_none_comes_twice(rt: HostRuntime) -> Result<(), Fail> {
    let alloc = rt.alloc();
    let two = DistinctNames::of(names(alloc, &["b", "a"])?).ok_or("no names")?;
    let copy = two.copy(alloc)?;
    assert_eq!(rt; copy.as_names().len(), 2);
    assert!(rt; *copy.as_names().get(0).ok_or("no first name")? == name("b")?);
    assert!(rt; DistinctNames::of(names(alloc, &[])?).is_some());
    for twice in [["a", "a", "b"], ["a", "b", "a"], ["b", "a", "a"]] {
        assert!(rt; DistinctNames::of(names(alloc, &twice)?).is_none());
    }
    Ok(())
}

fn set_value(alloc: Global) -> Result<Command, NoMemory> {
    let dataset = name("t")?;
    let column = name("a")?;
    let row = words(alloc, "#2")?;
    Ok(Command::SetValue {
        dataset,
        row,
        column,
        value: Value::Int(-7),
    })
}

fn sort(alloc: Global) -> Result<Command, NoMemory> {
    let dataset = name("t")?;
    let name = name("a")?;
    let mut by = SortNames::new(alloc)?;
    by.push(
        alloc,
        SortName {
            name,
            descending: true,
        },
    )?;
    Ok(Command::Sort { dataset, by })
}

fn sets_minus_seven(command: &Command) -> bool {
    match command {
        Command::SetValue { row, value, .. } => row.as_text() == "#2" && *value == Value::Int(-7),
        _ => false,
    }
}

fn sorts_downward(command: &Command) -> bool {
    match command {
        Command::Sort { by, .. } => match by.get(0) {
            Some(first) => first.descending,
            None => false,
        },
        _ => false,
    }
}

#[test]
fn a_copied_command_has_the_same_parts(rt: HostRuntime) -> Result<(), Fail> {
    let alloc = rt.alloc();
    let copied = set_value(alloc)?.copy(alloc)?;
    assert!(rt; sets_minus_seven(&copied));
    let copied = sort(alloc)?.copy(alloc)?;
    assert!(rt; sorts_downward(&copied));
    Ok(())
}
