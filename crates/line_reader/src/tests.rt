//! Tests of the reader over streams that are cut by hand.
use crate::{Lines, Next};
use outside_io::{MemorySource, Numbers, Pieces};
use std::alloc::Global;
use std::process::Abort;
use std::test::Fail;
use value_types::{Bytes, NoMemory};

fn pieces_of(alloc: Global, texts: &[&str]) -> Result<Pieces, NoMemory> {
    let mut pieces = Pieces::new(alloc)?;
    for text in texts {
        pieces.push(alloc, Bytes::from_slice(alloc, text.as_bytes())?)?;
    }
    Ok(pieces)
}

/// One piece of so many bytes `x`, and then a line feed.
fn long_line(alloc: Global, count: usize) -> Result<Pieces, NoMemory> {
    let line = vec![in alloc; b'x'; count]?;
    let mut bytes = Bytes::from_slice(alloc, line.as_slice())?;
    bytes.push(alloc, b'\n')?;
    let mut pieces = Pieces::new(alloc)?;
    pieces.push(alloc, bytes)?;
    Ok(pieces)
}

/// The reader gives these lines, and then this answer.
fn gives(rt: &(impl Abort + AllocGlobal), source: &mut MemorySource, lines: &[&str], last: &str) {
    let Ok(mut reader) = Lines::new(rt.alloc()) else {
        panic!(rt; "no reader");
    };
    for want in lines {
        match reader.next(rt.alloc(), source) {
            Next::Line(line) => assert_eq!(rt; line.as_slice(), want.as_bytes(), "not {want}"),
            answer => panic!(rt; "{answer:?} for {want}"),
        }
    }
    assert_eq!(rt; word_of(&reader.next(rt.alloc(), source)), last);
}

fn word_of(next: &Next) -> &'static str {
    match next {
        Next::Line(_) => "line",
        Next::End => "end",
        Next::ReadFault => "read fault",
        Next::StreamTooLong => "stream too long",
        Next::NoMemory => "no memory",
    }
}

#[test]
fn a_stream_is_cut_at_line_feeds(rt: HostRuntime) -> Result<(), Fail> {
    let cases: [(&[&str], &[&str]); 6] = [
        (&[], &[]),
        (&["ab\nc\n"], &["ab", "c"]),
        (&["ab\nc"], &["ab", "c"]),
        (&["\n\na"], &["", "", "a"]),
        (&["a\r\n", "\r"], &["a\r", "\r"]),
        (&["a", "", "b\nc", "d", "\n"], &["ab", "cd"]),
    ];
    for (pieces, lines) in cases {
        let pieces = pieces_of(rt.alloc(), pieces)?;
        let mut source = MemorySource::new(pieces, Numbers::new(rt.alloc())?, false);
        gives(&rt, &mut source, lines, "end");
    }
    Ok(())
}

#[test]
fn a_read_fault_comes_after_the_lines_before_it(rt: HostRuntime) -> Result<(), Fail> {
    let mut fails = Numbers::new(rt.alloc())?;
    fails.push(rt.alloc(), 2)?;
    let mut source = MemorySource::new(pieces_of(rt.alloc(), &["ab\nc\nd", "e\n"])?, fails, false);
    gives(&rt, &mut source, &["ab", "c"], "read fault");
    let pieces = pieces_of(rt.alloc(), &["ab\ncd"])?;
    let mut broken = MemorySource::new(pieces, Numbers::new(rt.alloc())?, true);
    gives(&rt, &mut broken, &["ab"], "read fault");
    Ok(())
}

#[test]
fn a_long_line_is_kept_to_one_byte_past_its_limit(rt: HostRuntime) -> Result<(), Fail> {
    for (count, kept) in [(65_536, 65_536), (65_537, 65_537), (70_000, 65_537)] {
        let pieces = long_line(rt.alloc(), count)?;
        let mut source = MemorySource::new(pieces, Numbers::new(rt.alloc())?, false);
        let mut reader = Lines::new(rt.alloc())?;
        match reader.next(rt.alloc(), &mut source) {
            Next::Line(line) => assert_eq!(rt; line.len(), kept, "of {count}"),
            answer => panic!(&rt; "{answer:?} for {count}"),
        }
        assert_eq!(rt; word_of(&reader.next(rt.alloc(), &mut source)), "end");
    }
    Ok(())
}

#[test]
fn a_stream_ends_at_its_limit(rt: HostRuntime) -> Result<(), Fail> {
    for (count, last) in [(16_777_215, "end"), (16_777_216, "stream too long")] {
        let pieces = long_line(rt.alloc(), count)?;
        let mut source = MemorySource::new(pieces, Numbers::new(rt.alloc())?, false);
        let mut reader = Lines::new(rt.alloc())?;
        let first = reader.next(rt.alloc(), &mut source);
        let answer = match &first {
            Next::Line(_) => word_of(&reader.next(rt.alloc(), &mut source)),
            other => word_of(other),
        };
        assert_eq!(rt; answer, last, "for {count}");
    }
    Ok(())
}
