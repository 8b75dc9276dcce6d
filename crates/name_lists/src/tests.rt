//! Names that are added twice.
use crate::add_name;
use std::test::Fail;
use value_types::{ListOf, Names, read_name};

#[test]
fn a_name_that_is_there_is_not_added(rt: HostRuntime) -> Result<(), Fail> {
    let a = read_name(b"a").ok_or("no name")?;
    let b = read_name(b"b").ok_or("no name")?;
    let mut names: Names = ListOf::new(rt.alloc()).ok().ok_or("no list")?;
    add_name(rt.alloc(), &mut names, &b)
        .ok()
        .ok_or("no memory")?;
    add_name(rt.alloc(), &mut names, &a)
        .ok()
        .ok_or("no memory")?;
    add_name(rt.alloc(), &mut names, &b)
        .ok()
        .ok_or("no memory")?;
    assert_eq!(rt; names.len(), 2);
    assert_eq!(rt; names.get(0).ok_or("no name")?.as_text(), "b");
    assert_eq!(rt; names.get(1).ok_or("no name")?.as_text(), "a");
    Ok(())
}
