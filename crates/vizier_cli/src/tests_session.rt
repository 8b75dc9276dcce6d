//! Runs of the session alone, and of a stream whose source fails within a line.
use dataset_types::Picks;
use outside_io::{
    Files, MemoryShelf, MemorySink, MemorySource, Numbers, Pieces, SteadyShelf, SteadySink,
    SteadySource,
};
use report_words::SessionStatus;
use session_core::serial_session;
use std::alloc::Global;
use std::test::Fail;
use value_types::{Bytes, NoMemory};

const EDIT: &str =
    "{\"edit\":\"append\",\"branch\":\"main\",\"cell\":{\"make\":\"t\",\"columns\":[[\"a\",\"int\"]],\"rows\":[]}}\n";

const BLOCK: &str = "version 1 main\ncell 1 #1 ok\ndataset t\n  columns a int\nend 1\n";

fn pieces_of(alloc: Global, pieces: &[&str]) -> Result<Pieces, NoMemory> {
    let mut all = Pieces::new(alloc)?;
    for piece in pieces {
        all.push(alloc, Bytes::from_slice(alloc, piece.as_bytes())?)?;
    }
    Ok(all)
}

#[test]
fn a_session_over_steady_objects_is_done(rt: HostRuntime) -> Result<(), Fail> {
    let alloc = rt.alloc();
    let mut source = SteadySource::new(pieces_of(alloc, &[EDIT])?);
    let mut shelf = SteadyShelf::new(Files::new(alloc)?);
    let mut sink = SteadySink::new(alloc)?;
    let picks = Picks::new(alloc)?;
    let status = serial_session(alloc, picks, &mut source, &mut shelf, &mut sink);
    assert_eq!(rt; status, SessionStatus::Done);
    assert_eq!(rt; sink.written(), BLOCK.as_bytes());
    Ok(())
}

#[test]
fn a_line_in_which_the_source_fails_is_not_reported(rt: HostRuntime) -> Result<(), Fail> {
    let alloc = rt.alloc();
    let pieces = pieces_of(alloc, &[EDIT, "{\"edit\":\"app"])?;
    let mut source = MemorySource::new(pieces, Numbers::new(alloc)?, true);
    let mut shelf = MemoryShelf::new(Files::new(alloc)?, Numbers::new(alloc)?);
    let mut sink = MemorySink::new(alloc, 1000, Numbers::new(alloc)?)?;
    let picks = Picks::new(alloc)?;
    let status = serial_session(alloc, picks, &mut source, &mut shelf, &mut sink);
    assert_eq!(rt; status, SessionStatus::ReadFault);
    assert_eq!(rt; sink.written(), BLOCK.as_bytes());
    Ok(())
}
