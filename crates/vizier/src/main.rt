//! Reads a stream of edit lines from standard input and writes its report to standard output.
#![tactic(auto)]

use outside_io::{FolderShelf, StdinSource, StdoutSink};
use std::alloc::Global;
use std::env;
use std::io::{self, ErrorKind};
use std::process::ExitCode;
use vizier_cli::{Status, vizier_serial};

fn main(rt: HostRuntime) -> ExitCode {
    let status = match words(&rt, rt.alloc()) {
        Ok(words) => {
            let mut source = StdinSource::new(rt.stdin());
            let mut shelf = FolderShelf::new(&rt);
            let mut sink = StdoutSink::new(rt.stdout());
            vizier_serial(
                rt.alloc(),
                words.as_slice(),
                &mut source,
                &mut shelf,
                &mut sink,
            )
        }
        Err(error) => unread(&error),
    };
    tell(&rt, status);
    ExitCode::from(status.number())
}

/// Names a status other than Done on standard error, and the line of a picks file that is none.
fn tell(rt: &HostRuntime, status: Status) {
    let name = status.name();
    let _ = match status {
        Status::Done => Ok(()),
        Status::BadPicks { line } => eprintln!(rt; "vizier: {name} {line}"),
        _ => eprintln!(rt; "vizier: {name}"),
    };
}

/// The words after the program's name. One that isn't UTF-8 is an error.
fn words(rt: &HostRuntime, alloc: Global) -> io::Result<Vec<String>> {
    let mut words = Vec::new(alloc);
    for word in env::args(rt)?.skip(1) {
        words.push(word)?;
    }
    Ok(words)
}

/// The status where the words could not be read: no memory was found, or one of them isn't UTF-8.
fn unread(error: &io::Error) -> Status {
    if error.kind() == ErrorKind::OutOfMemory {
        Status::NoMemory
    } else {
        Status::BadWords
    }
}
