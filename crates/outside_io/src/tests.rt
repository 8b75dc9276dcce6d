//! Tests of what no clause says: which piece a read gives, and the real objects.
ghost use Rattle.std.specs.Prelude.{◌≤◌, IfOk, None};

use crate::{
    Failed, Fetched, Files, FolderShelf, MemoryShelf, MemorySink, MemorySource, Numbers, Pieces,
    Shelf, ShelfFault, Sink, Source, StdinSource, StdoutSink, SteadyShelf, SteadySink,
    SteadySource, WriteFault, write_all,
};
use std::alloc::Global;
use std::io::{Error, ErrorKind, Read, Write};
use std::process::Abort;
use std::test::Fail;
use std::{env, fs, io};
use value_types::{Bytes, NoMemory, Words};

fn pieces_of(alloc: Global, texts: &[&str]) -> Result<Pieces, NoMemory> {
    let mut pieces = Pieces::new(alloc)?;
    for text in texts {
        pieces.push(alloc, Bytes::from_slice(alloc, text.as_bytes())?)?;
    }
    Ok(pieces)
}

fn numbers_of(alloc: Global, list: &[u64]) -> Result<Numbers, NoMemory> {
    let mut numbers = Numbers::new(alloc)?;
    for number in list {
        numbers.push(alloc, *number)?;
    }
    Ok(numbers)
}

fn files_of(alloc: Global, list: &[(&str, &str)]) -> Result<Files, NoMemory> {
    let mut files = Files::new(alloc)?;
    for (name, text) in list {
        let mut words = Words::new(alloc)?;
        words.push_text(alloc, name)?;
        files.push(alloc, (words, Bytes::from_slice(alloc, text.as_bytes())?))?;
    }
    Ok(files)
}

/// The read gives this text, or fails where it is None.
fn gives<S: Source>(rt: &impl Abort, source: &mut S, want: Option<&str>) {
    let mut buffer = [0u8; 4];
    match (source.read(&mut buffer), want) {
        (Ok(count), Some(text)) => {
            assert!(rt; count <= 4);
            assert_eq!(rt; &buffer[..count], text.as_bytes(), "wanted {text}");
        }
        (Err(Failed), None) => {}
        (answer, _) => panic!(rt; "unexpected {answer:?}"),
    }
}

#[test]
fn a_memory_source_gives_bytes_of_one_piece_a_call(rt: HostRuntime) -> Result<(), Fail> {
    let pieces = pieces_of(rt.alloc(), &["", "abcdef", "", "", "gh", ""])?;
    let fails = numbers_of(rt.alloc(), &[2])?;
    let mut source = MemorySource::new(pieces, fails, false);
    for want in [
        Some("abcd"),
        None,
        Some("ef"),
        Some("gh"),
        Some(""),
        Some(""),
    ] {
        gives(&rt, &mut source, want);
    }
    Ok(())
}

#[test]
fn a_broken_source_fails_at_its_end(rt: HostRuntime) -> Result<(), Fail> {
    let pieces = pieces_of(rt.alloc(), &["ab", ""])?;
    let mut source = MemorySource::new(pieces, Numbers::new(rt.alloc())?, true);
    for want in [Some("ab"), None, None] {
        gives(&rt, &mut source, want);
    }
    Ok(())
}

/// Since the count of a steady source stays 0, the check proves that no read of it fails.
fn read_steady(source: &mut SteadySource, buffer: &mut [u8]) -> usize {
    match source.read(buffer) {
        Ok(count) => count,
        Err(Failed) => unreachable!(),
    }
}

#[test]
fn a_steady_source_gives_all_pieces(rt: HostRuntime) -> Result<(), Fail> {
    let mut source = SteadySource::new(pieces_of(rt.alloc(), &["ab", "", "c"])?);
    for want in [Some("ab"), Some("c"), Some("")] {
        gives(&rt, &mut source, want);
    }
    assert_eq!(rt; read_steady(&mut source, &mut [0u8; 4]), 0);
    Ok(())
}

#[test]
fn a_memory_sink_takes_ten_bytes_and_then_fails(rt: HostRuntime) -> Result<(), Fail> {
    let mut sink = MemorySink::new(rt.alloc(), 10, numbers_of(rt.alloc(), &[2])?)?;
    let wants = [
        ("12345678", Ok(8)),
        ("abc", Err(WriteFault::Failed)),
        ("abc", Ok(2)),
        ("", Ok(0)),
        ("c", Err(WriteFault::Failed)),
    ];
    for (piece, want) in wants {
        assert_eq!(rt;
            sink.write(rt.alloc(), piece.as_bytes()),
            want,
            "at {piece}"
        );
    }
    assert_eq!(rt; sink.written(), b"12345678ab".as_slice());
    Ok(())
}

#[test]
fn a_text_is_written_up_to_the_room(rt: HostRuntime) -> Result<(), Fail> {
    let mut sink = MemorySink::new(rt.alloc(), 10, Numbers::new(rt.alloc())?)?;
    assert_eq!(rt; write_all(&mut sink, rt.alloc(), b"12345678"), Ok(()));
    assert_eq!(rt;
        write_all(&mut sink, rt.alloc(), b"abc"),
        Err(WriteFault::Failed)
    );
    assert_eq!(rt; sink.written(), b"12345678ab".as_slice());
    Ok(())
}

#[test]
fn a_steady_sink_takes_all(rt: HostRuntime) -> Result<(), Fail> {
    let mut sink = SteadySink::new(rt.alloc())?;
    assert_eq!(rt; sink.write(rt.alloc(), b"ab"), Ok(2));
    assert_eq!(rt; write_all(&mut sink, rt.alloc(), b"cd"), Ok(()));
    assert_eq!(rt; sink.written(), b"abcd".as_slice());
    Ok(())
}

/// The fetch finds this text, or answers this word in its place.
fn finds<H: Shelf>(
    rt: &impl Abort,
    shelf: &mut H,
    alloc: Global,
    name: &str,
    limit: u32,
    want: &str,
) {
    match shelf.fetch(alloc, name, limit) {
        Ok(Fetched::Bytes(bytes)) => assert_eq!(rt; bytes.as_slice(), want.as_bytes(), "{name}"),
        Ok(Fetched::Missing) => assert_eq!(rt; "missing", want, "{name}"),
        Ok(Fetched::TooLong) => assert_eq!(rt; "too long", want, "{name}"),
        Err(ShelfFault::Failed) => assert_eq!(rt; "failed", want, "{name}"),
        Err(ShelfFault::NoMemory) => assert_eq!(rt; "no memory", want, "{name}"),
    }
}

#[test]
fn a_shelf_answers_by_name_and_limit(rt: HostRuntime) -> Result<(), Fail> {
    let list = [("a", "four"), ("b", ""), ("a", "later")];
    let mut shelf = SteadyShelf::new(files_of(rt.alloc(), &list)?);
    let wants = [
        ("a", 4, "four"),
        ("a", 3, "too long"),
        ("b", 0, ""),
        ("c", 9, "missing"),
    ];
    for (name, limit, want) in wants {
        finds(&rt, &mut shelf, rt.alloc(), name, limit, want);
    }
    Ok(())
}

#[test]
fn a_memory_shelf_fails_at_the_listed_call(rt: HostRuntime) -> Result<(), Fail> {
    let files = files_of(rt.alloc(), &[("a", "four")])?;
    let mut shelf = MemoryShelf::new(files, numbers_of(rt.alloc(), &[2])?);
    for want in ["four", "failed", "four"] {
        finds(&rt, &mut shelf, rt.alloc(), "a", 4, want);
    }
    Ok(())
}

/// Interrupted at its first calls, then it takes or gives a byte a call.
#[derive(Drop)]
struct Shaky {
    interruptions: u32,
    left: u32,
}

impl Shaky {
    fn turn(&mut self) -> io::Result<usize>
        ensures { IfOk result (λ n. n ≤ 1) }
    {
        if self.interruptions > 0 {
            self.interruptions -= 1;
            return Err(Error::from(ErrorKind::Interrupted));
        }
        if self.left == 0 {
            return Ok(0);
        }
        self.left -= 1;
        Ok(1)
    }
}

impl Read for Shaky {
    fn read(&mut self, buffer: &mut [u8]) -> io::Result<usize> {
        if buffer.is_empty() {
            return Ok(0);
        }
        buffer[0] = b'x';
        self.turn()
    }
}

impl Write for Shaky {
    fn write(&mut self, piece: &[u8]) -> io::Result<usize> {
        if piece.is_empty() {
            return Ok(0);
        }
        self.turn()
    }

    fn flush(&mut self) -> io::Result<()> {
        Ok(())
    }
}

#[test]
fn an_interrupted_call_is_made_again(rt: HostRuntime) {
    let mut source = StdinSource::new(Shaky {
        interruptions: 2,
        left: 1,
    });
    for want in [Some("x"), Some("")] {
        gives(&rt, &mut source, want);
    }
    let mut sink = StdoutSink::new(Shaky {
        interruptions: 2,
        left: 1,
    });
    assert_eq!(rt; sink.write(rt.alloc(), b"ab"), Ok(1));
}

#[test]
fn a_call_that_is_always_interrupted_fails(rt: HostRuntime) {
    let mut source = StdinSource::new(Shaky {
        interruptions: 1000,
        left: 1,
    });
    gives(&rt, &mut source, None);
    let mut sink = StdoutSink::new(Shaky {
        interruptions: 1000,
        left: 1,
    });
    assert_eq!(rt; sink.write(rt.alloc(), b"ab"), Err(WriteFault::Failed));
}

#[test]
fn a_writer_that_takes_nothing_has_failed(rt: HostRuntime) {
    let mut sink = StdoutSink::new(Shaky {
        interruptions: 0,
        left: 0,
    });
    assert_eq!(rt; sink.write(rt.alloc(), b""), Ok(0));
    assert_eq!(rt; sink.write(rt.alloc(), b"ab"), Err(WriteFault::Failed));
}

#[test]
fn a_folder_shelf_reads_files(rt: HostRuntime) -> Result<(), Fail> {
    let folder = env::temp_dir(&rt)?.join(rt.alloc(), "outside_io_folder_shelf")?;
    let file = folder.join(rt.alloc(), "four")?;
    fs::create_dir_all(&rt, folder.as_path())?;
    fs::write(&rt, file.as_path(), "four")?;
    let folder = folder.to_str().ok_or("a folder that is no text")?;
    let name = file.to_str().ok_or("a file that is no text")?;
    let through = file.join(rt.alloc(), "x")?;
    let through = through.to_str().ok_or("a file that is no text")?;
    let mut shelf = FolderShelf::new(&rt);
    finds(&rt, &mut shelf, rt.alloc(), name, 4, "four");
    finds(&rt, &mut shelf, rt.alloc(), name, 3, "too long");
    finds(&rt, &mut shelf, rt.alloc(), folder, 9, "failed");
    finds(&rt, &mut shelf, rt.alloc(), through, 9, "missing");
    fs::remove_file(&rt, name)?;
    finds(&rt, &mut shelf, rt.alloc(), name, 9, "missing");
    Ok(())
}
