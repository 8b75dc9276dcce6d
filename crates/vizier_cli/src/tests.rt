//! Runs of the top call over memory, against the documented format.
use crate::{Status, vizier_serial};
use outside_io::{
    Files, MemoryShelf, MemorySink, MemorySource, Numbers, Pieces, SteadyShelf, SteadySink,
    SteadySource,
};
use std::alloc::Global;
use std::process::Abort;
use std::test::Fail;
use value_types::{Bytes, NoMemory, Words};

const EDIT: &str =
    "{\"edit\":\"append\",\"branch\":\"main\",\"cell\":{\"make\":\"t\",\"columns\":[[\"a\",\"int\"],[\"b\",\"text\"]],\"rows\":[[1,\"x\"],[2,null]]}}";

const BLOCK: &str =
    "version 1 main\ncell 1 #1 ok\ndataset t\n  columns a int, b text\n  #1: 1, \"x\"\n  #2: 2, null\nend 1\n";

fn words_of(alloc: Global, texts: &[&str]) -> Result<Vec<String>, NoMemory> {
    let mut words = Vec::new(alloc);
    for text in texts {
        words.push(String::from_str(alloc, text)?)?;
    }
    Ok(words)
}

fn files_of(alloc: Global, files: &[(&str, &str)]) -> Result<Files, NoMemory> {
    let mut all = Files::new(alloc)?;
    for (name, text) in files {
        let mut words = Words::new(alloc)?;
        words.push_text(alloc, name)?;
        all.push(alloc, (words, Bytes::from_slice(alloc, text.as_bytes())?))?;
    }
    Ok(all)
}

fn pieces_of(alloc: Global, pieces: &[&str]) -> Result<Pieces, NoMemory> {
    let mut all = Pieces::new(alloc)?;
    for piece in pieces {
        all.push(alloc, Bytes::from_slice(alloc, piece.as_bytes())?)?;
    }
    Ok(all)
}

#[test]
fn steady_objects_give_the_plainest_block(rt: HostRuntime) -> Result<(), Fail> {
    let alloc = rt.alloc();
    let mut source = SteadySource::new(pieces_of(alloc, &[EDIT, "\n"])?);
    let mut shelf = SteadyShelf::new(Files::new(alloc)?);
    let mut sink = SteadySink::new(alloc)?;
    let words = words_of(alloc, &["serial"])?;
    let status = vizier_serial(alloc, words.as_slice(), &mut source, &mut shelf, &mut sink);
    assert_eq!(rt; status, Status::Done);
    assert_eq!(rt; sink.written(), BLOCK.as_bytes());
    Ok(())
}

#[test]
fn faults_end_the_report_where_they_come(rt: HostRuntime) -> Result<(), Fail> {
    let alloc = rt.alloc();
    for (broken, room, want, text) in [
        (false, 1000, Status::Done, BLOCK),
        (true, 1000, Status::ReadFault, BLOCK),
        (false, 10, Status::WriteFault, "version 1 "),
    ] {
        let pieces = pieces_of(alloc, &[EDIT, "\n"])?;
        let mut source = MemorySource::new(pieces, Numbers::new(alloc)?, broken);
        let mut shelf = MemoryShelf::new(Files::new(alloc)?, Numbers::new(alloc)?);
        let mut sink = MemorySink::new(alloc, room, Numbers::new(alloc)?)?;
        let words = words_of(alloc, &["serial"])?;
        let status = vizier_serial(alloc, words.as_slice(), &mut source, &mut shelf, &mut sink);
        assert_eq!(rt; status, want);
        assert_eq!(rt; sink.written(), text.as_bytes());
    }
    Ok(())
}

#[test]
fn other_words_are_refused_and_nothing_is_written(rt: HostRuntime) -> Result<(), Fail> {
    let alloc = rt.alloc();
    let cases: [&[&str]; 11] = [
        &[],
        &["Serial"],
        &["serial", "serial"],
        &["serial", "--picks"],
        &["serial", "--picks=k"],
        &["serial", "--pick", "k"],
        &["serial", "--picks", "-k"],
        &["serial", "--picks", ""],
        &["serial", "--picks", "k", "--picks"],
        &["serial", "--picks", "k", "--picks", "k"],
        &["--picks", "k", "serial"],
    ];
    for texts in cases {
        let mut source = SteadySource::new(pieces_of(alloc, &[EDIT])?);
        let mut shelf = SteadyShelf::new(files_of(alloc, &[("k", "")])?);
        let mut sink = SteadySink::new(alloc)?;
        let words = words_of(alloc, texts)?;
        let status = vizier_serial(alloc, words.as_slice(), &mut source, &mut shelf, &mut sink);
        assert_eq!(rt; status, Status::BadWords);
        assert_eq!(rt; sink.written().len(), 0);
    }
    Ok(())
}

#[test]
fn picks_are_read_before_the_stream(rt: HostRuntime) -> Result<(), Fail> {
    let alloc = rt.alloc();
    let cases = [
        ("k", "", Status::Done, BLOCK),
        (
            "k",
            "{\"cell\":1,\"record\":2,\"keep\":false}\n\n",
            Status::Done,
            BLOCK,
        ),
        (
            "k",
            "{\"cell\":1,\"call\":1,\"value\":false}\n{\"cell\":1}\n",
            Status::BadPicks { line: 2 },
            "",
        ),
        ("other", "", Status::BadPicks { line: 0 }, ""),
    ];
    for (name, picks, want, text) in cases {
        let mut source = SteadySource::new(pieces_of(alloc, &[EDIT])?);
        let mut shelf = SteadyShelf::new(files_of(alloc, &[(name, picks)])?);
        let mut sink = SteadySink::new(alloc)?;
        let words = words_of(alloc, &["serial", "--picks", "k"])?;
        let status = vizier_serial(alloc, words.as_slice(), &mut source, &mut shelf, &mut sink);
        assert_eq!(rt; status, want);
        assert_eq!(rt; sink.written(), text.as_bytes());
    }
    Ok(())
}

#[test]
fn a_shelf_that_fails_at_the_picks_ends_the_program(rt: HostRuntime) -> Result<(), Fail> {
    let alloc = rt.alloc();
    let mut first = Numbers::new(alloc)?;
    first.push(alloc, 1)?;
    let mut source = SteadySource::new(pieces_of(alloc, &[EDIT])?);
    let mut shelf = MemoryShelf::new(files_of(alloc, &[("k", "")])?, first);
    let mut sink = SteadySink::new(alloc)?;
    let words = words_of(alloc, &["serial", "--picks", "k"])?;
    let status = vizier_serial(alloc, words.as_slice(), &mut source, &mut shelf, &mut sink);
    assert_eq!(rt; status, Status::PicksFault);
    assert_eq!(rt; status.number(), 7);
    assert_eq!(rt; sink.written().len(), 0);
    Ok(())
}

#[test]
fn each_status_has_its_number_and_name(rt: HostRuntime) -> Result<(), Fail> {
    for (status, number, name) in [
        (Status::Done, 0, "Done"),
        (Status::BadWords, 1, "BadWords"),
        (Status::ReadFault, 2, "ReadFault"),
        (Status::WriteFault, 3, "WriteFault"),
        (Status::NoMemory, 4, "NoMemory"),
        (Status::BadPicks { line: 3 }, 5, "BadPicks"),
        (Status::StreamTooLong, 6, "StreamTooLong"),
        (Status::PicksFault, 7, "PicksFault"),
    ] {
        assert_eq!(rt; status.number(), number);
        assert_eq!(rt; status.name(), name);
    }
    Ok(())
}

/// The report of the stream's first bytes: a block for the line that is whole, and a refusal of the rest.
fn after_a_cut(alloc: Global, stream: &str, at: usize) -> Result<String, NoMemory> {
    let whole = EDIT.len();
    let mut report = String::new(alloc);
    if at >= whole {
        report.push_str(BLOCK)?;
    } else if at > 0 {
        report.push_str("line 1 refused E1 BadJson\n")?;
    }
    if at > whole + 1 && at < stream.len() {
        report.push_str("line 2 refused E1 BadJson\n")?;
    }
    if at == stream.len() {
        report.push_str("version 2 main\nend 2\n")?;
    }
    Ok(report)
}

#[test]
fn a_stream_that_is_cut_after_any_byte_has_a_report(rt: HostRuntime) -> Result<(), Fail> {
    let alloc = rt.alloc();
    let mut stream = String::from_str(alloc, EDIT)?;
    stream.push_str("\n{\"edit\":\"delete\",\"branch\":\"main\",\"at\":1}")?;
    let words = words_of(alloc, &["serial"])?;
    for at in 0..stream.len() + 1 {
        let mut pieces = Pieces::new(alloc)?;
        pieces.push(alloc, Bytes::from_slice(alloc, &stream.as_bytes()[..at])?)?;
        let mut source = SteadySource::new(pieces);
        let mut shelf = SteadyShelf::new(Files::new(alloc)?);
        let mut sink = SteadySink::new(alloc)?;
        let status = vizier_serial(alloc, words.as_slice(), &mut source, &mut shelf, &mut sink);
        assert_eq!(rt; status, Status::Done);
        let want = after_a_cut(alloc, stream.as_str(), at)?;
        assert_eq!(rt; sink.written(), want.as_bytes(), "after {at} bytes");
    }
    Ok(())
}

const LOAD: &str =
    "{\"edit\":\"append\",\"branch\":\"main\",\"cell\":{\"load\":\"p\",\"file\":\"p.csv\",\"types\":[\"int\",\"fixed\"]}}\n";

#[test]
fn a_load_is_refused_where_the_shelf_fails_and_else_has_its_picks(
    rt: HostRuntime,
) -> Result<(), Fail> {
    let alloc = rt.alloc();
    let mut second = Numbers::new(alloc)?;
    second.push(alloc, 2)?;
    let files = [
        ("p.csv", "id,price\n1,2.50\n2,abc\n"),
        ("k", "{\"cell\":1,\"record\":2,\"column\":2,\"value\":7}\n"),
    ];
    let mut source = SteadySource::new(pieces_of(alloc, &[LOAD, LOAD])?);
    let mut shelf = MemoryShelf::new(files_of(alloc, &files)?, second);
    let mut sink = SteadySink::new(alloc)?;
    let words = words_of(alloc, &["serial", "--picks", "k"])?;
    let status = vizier_serial(alloc, words.as_slice(), &mut source, &mut shelf, &mut sink);
    assert_eq!(rt; status, Status::Done);
    let want =
        "line 1 refused E10 FileFault\nversion 1 main\ncell 1 #1 ok\ndataset p\n  columns id int, price fixed\n  #1: 1, 2.5000\n  #2: 2, ~7.0000\nend 1\n";
    assert_eq!(rt; sink.written(), want.as_bytes());
    Ok(())
}

/// The line of the plainest edit with one byte of it changed, and two whole lines after it.
fn damaged(alloc: Global, at: usize, byte: u8) -> Result<Vec<u8>, NoMemory> {
    let mut stream = EDIT.as_bytes().to_vec(alloc)?;
    if let Some(place) = stream.get_mut(at) {
        *place = byte;
    }
    stream.extend_from_slice(b"\n{\"edit\":\"branch\",\"branch\":\"b\",\"from\":0}\n")?;
    stream.extend_from_slice(EDIT.as_bytes())?;
    Ok(stream)
}

/// What is written of a stream over objects that never fail, where the program ends with Done.
fn report_of(alloc: Global, stream: &[u8]) -> Result<Option<Vec<u8>>, NoMemory> {
    let mut pieces = Pieces::new(alloc)?;
    pieces.push(alloc, Bytes::from_slice(alloc, stream)?)?;
    let mut source = SteadySource::new(pieces);
    let mut shelf = SteadyShelf::new(Files::new(alloc)?);
    let mut sink = SteadySink::new(alloc)?;
    let words = words_of(alloc, &["serial"])?;
    match vizier_serial(alloc, words.as_slice(), &mut source, &mut shelf, &mut sink) {
        Status::Done => Ok(Some(sink.written().to_vec(alloc)?)),
        _ => Ok(None),
    }
}

// A byte that is no UTF-8, one quote too many, and a control byte, where the line had another.
#[test]
fn a_stream_in_which_any_byte_is_damaged_has_a_report(rt: HostRuntime) -> Result<(), Fail> {
    let alloc = rt.alloc();
    let mut want = String::from_str(alloc, "line 1 refused E1 BadJson\n")?;
    want.push_str("line 2 refused E4 NoVersion\n")?;
    want.push_str(BLOCK)?;
    for byte in [255, b'"', 0] {
        for at in 0..EDIT.len() {
            if EDIT.as_bytes()[at] != byte {
                let stream = damaged(alloc, at, byte)?;
                let report = report_of(alloc, &stream)?;
                assert_eq!(rt; report.as_deref(), Some(want.as_bytes()), "{byte} at {at}");
            }
        }
    }
    Ok(())
}
