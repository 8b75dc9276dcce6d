//! Tests of whole notebooks, whose cells are told apart by their ids.
use crate::Notebook;
use cell_model::CellKind;
use dataset_types::{Columns, Picks, Rows, Table};
use edit_wire::{Edit, EditCell, EditFault, EditKind};
use outside_io::{Files, MemoryShelf, Numbers};
use std::alloc::Global;
use std::test::Fail;
use value_types::{ArcOf, Name, read_name};

/// What an edit does, with an empty table as its cell.
#[derive(Clone, Copy)]
enum Does {
    Append,
    Insert(u32),
    Update(u32),
    Delete(u32),
    Branch(u32),
}

fn name(text: &str) -> Result<Name, Fail> {
    Ok(read_name(text.as_bytes()).ok_or("no name")?)
}

fn cell(alloc: Global) -> Result<EditCell, Fail> {
    let table = Table::new(alloc, Columns::new(alloc)?, Rows::new(alloc)?, false, false)?;
    let table = ArcOf::new(alloc, table)?;
    Ok(EditCell::Other(CellKind::Make {
        name: name("t")?,
        table,
    }))
}

fn kind(alloc: Global, does: Does) -> Result<EditKind, Fail> {
    let cell = cell(alloc)?;
    Ok(match does {
        Does::Append => EditKind::Append { cell },
        Does::Insert(at) => EditKind::Insert { at, cell },
        Does::Update(at) => EditKind::Update { at, cell },
        Does::Delete(at) => EditKind::Delete { at },
        Does::Branch(from) => EditKind::Branch { from },
    })
}

fn empty_notebook(alloc: Global) -> Result<Notebook, Fail> {
    Ok(Notebook::new(alloc, Picks::new(alloc)?)?)
}

/// The number of the version that an edit makes, or the name of its refusal.
fn answer(
    alloc: Global,
    notebook: &mut Notebook,
    branch: &str,
    does: Does,
) -> Result<String, Fail> {
    let edit = Edit {
        branch: name(branch)?,
        kind: kind(alloc, does)?,
    };
    let mut shelf = MemoryShelf::new(Files::new(alloc)?, Numbers::new(alloc)?);
    Ok(match notebook.accept(alloc, &edit, &mut shelf) {
        Ok(number) => format!(in alloc; "{number}")?,
        Err(EditFault::Refused(refusal)) => format!(in alloc; "{refusal:?}")?,
        Err(EditFault::NoMemory) => format!(in alloc; "no memory")?,
    })
}

/// The branch of a version and the ids of its cells.
fn shown(alloc: Global, notebook: &Notebook, version: u32) -> Result<String, Fail> {
    let (Some(branch), Some(cells)) = (notebook.branch_of(version), notebook.cells_of(version))
    else {
        return Ok(format!(in alloc; "none")?);
    };
    let mut text = format!(in alloc; "{}", branch.as_text())?;
    for cell in cells.as_slice() {
        text.push_str(format!(in alloc; " {}", cell.get().id)?.as_str())?;
    }
    Ok(text)
}

/// The heads of the branches that the tests use.
fn heads(alloc: Global, notebook: &Notebook) -> Result<String, Fail> {
    let main = notebook.branch_head(&name("main")?);
    let other = notebook.branch_head(&name("b")?);
    Ok(format!(in alloc; "{main:?} {other:?}")?)
}

#[test]
fn each_branch_has_its_own_versions(rt: HostRuntime) -> Result<(), Fail> {
    let alloc = rt.alloc();
    let mut notebook = empty_notebook(alloc)?;
    assert_eq!(rt; heads(alloc, &notebook)?.as_str(), "Empty NoBranch");
    for (branch, does, number, version) in [
        ("main", Does::Append, "1", "main 1"),
        ("main", Does::Append, "2", "main 1 2"),
        ("b", Does::Branch(1), "3", "b 1"),
        ("b", Does::Append, "4", "b 1 4"),
        ("main", Does::Update(1), "5", "main 5 2"),
        ("b", Does::Insert(1), "6", "b 6 1 4"),
        ("b", Does::Insert(4), "7", "b 6 1 4 7"),
        ("main", Does::Delete(2), "8", "main 5"),
        ("main", Does::Delete(1), "9", "main"),
        ("main_2", Does::Branch(7), "10", "main_2 6 1 4 7"),
    ] {
        assert_eq!(rt;
            answer(alloc, &mut notebook, branch, does)?.as_str(),
            number
        );
        let last = notebook.len() as u32;
        assert_eq!(rt; shown(alloc, &notebook, last)?.as_str(), version);
    }
    assert_eq!(rt; heads(alloc, &notebook)?.as_str(), "Version(9) Version(7)");
    assert_eq!(rt; shown(alloc, &notebook, 2)?.as_str(), "main 1 2");
    assert_eq!(rt; shown(alloc, &notebook, 0)?.as_str(), "none");
    assert_eq!(rt; shown(alloc, &notebook, 11)?.as_str(), "none");
    assert_eq!(rt; notebook.shared(), (7, 4), "the four cells of version 7");
    Ok(())
}

#[test]
fn a_refusal_leaves_the_notebook_as_it_was(rt: HostRuntime) -> Result<(), Fail> {
    let alloc = rt.alloc();
    let mut notebook = empty_notebook(alloc)?;
    for _ in 0..48 {
        answer(alloc, &mut notebook, "main", Does::Append)?;
    }
    assert_eq!(rt;
        answer(alloc, &mut notebook, "b", Does::Branch(1))?.as_str(),
        "49"
    );
    for (branch, does, refusal) in [
        ("c", Does::Append, "NoBranch"),
        ("c", Does::Update(9), "NoBranch"),
        ("c", Does::Branch(0), "NoVersion"),
        ("b", Does::Branch(50), "NoVersion"),
        ("b", Does::Insert(3), "NoCell"),
        ("main", Does::Delete(49), "NoCell"),
        ("b", Does::Branch(1), "BranchTaken"),
        ("main", Does::Branch(49), "BranchTaken"),
        ("main", Does::Append, "TooMany"),
        ("main", Does::Insert(1), "TooMany"),
    ] {
        assert_eq!(rt;
            answer(alloc, &mut notebook, branch, does)?.as_str(),
            refusal
        );
        assert_eq!(rt; notebook.len(), 49);
        assert_eq!(rt;
            heads(alloc, &notebook)?.as_str(),
            "Version(48) Version(49)"
        );
        assert_eq!(rt; shown(alloc, &notebook, 49)?.as_str(), "b 1");
    }
    assert_eq!(rt;
        answer(alloc, &mut notebook, "main", Does::Update(48))?.as_str(),
        "50"
    );
    Ok(())
}

#[test]
fn there_are_at_most_256_versions(rt: HostRuntime) -> Result<(), Fail> {
    let alloc = rt.alloc();
    let mut notebook = empty_notebook(alloc)?;
    for _ in 0..128 {
        answer(alloc, &mut notebook, "main", Does::Append)?;
        answer(alloc, &mut notebook, "main", Does::Delete(1))?;
    }
    assert_eq!(rt; heads(alloc, &notebook)?.as_str(), "Version(256) NoBranch");
    assert_eq!(rt;
        answer(alloc, &mut notebook, "main", Does::Append)?.as_str(),
        "TooMany"
    );
    assert_eq!(rt;
        answer(alloc, &mut notebook, "b", Does::Branch(1))?.as_str(),
        "TooMany"
    );
    // What is wrong besides is told first.
    for (branch, does, refusal) in [
        ("b", Does::Append, "NoBranch"),
        ("b", Does::Branch(257), "NoVersion"),
        ("main", Does::Insert(2), "NoCell"),
        ("main", Does::Branch(1), "BranchTaken"),
    ] {
        assert_eq!(rt;
            answer(alloc, &mut notebook, branch, does)?.as_str(),
            refusal
        );
    }
    assert_eq!(rt; shown(alloc, &notebook, 255)?.as_str(), "main 255");
    Ok(())
}

#[test]
fn there_are_at_most_768_prefixes(rt: HostRuntime) -> Result<(), Fail> {
    let alloc = rt.alloc();
    let mut notebook = empty_notebook(alloc)?;
    for _ in 0..47 {
        answer(alloc, &mut notebook, "main", Does::Append)?;
    }
    // Each adds 47 prefixes to the 47 that are there.
    for _ in 0..15 {
        answer(alloc, &mut notebook, "main", Does::Update(1))?;
    }
    for (branch, does, said) in [
        // 752 and 15 more, and 1 more.
        ("main", Does::Update(33), "63"),
        ("main", Does::Append, "64"),
        ("main", Does::Update(48), "TooMany"),
        ("b", Does::Branch(64), "65"),
        ("b", Does::Append, "TooMany"),
        ("b", Does::Delete(48), "66"),
    ] {
        assert_eq!(rt; answer(alloc, &mut notebook, branch, does)?.as_str(), said);
    }
    Ok(())
}
