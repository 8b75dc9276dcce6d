//! How the program ended.
ghost use Rattle.std.specs.Prelude.{◌≡◌};
ghost use Rattle.vizier_cli.specs.Statuses.{number_of, name_of, status_of};

use report_words::SessionStatus;

/// How the program ended.
#[derive(Clone, Copy, Debug, PartialEq, Eq)]
pub enum Status {
    /// 0: the stream was read to its end, and the whole report was written.
    Done,
    /// 1: the words are no command; nothing was read or written.
    BadWords,
    /// 2: the source failed, and no write did.
    ReadFault,
    /// 3: a write failed.
    WriteFault,
    /// 4: no memory was found.
    NoMemory,
    /// 5: this line of the picks file is the first that is neither blank nor a pick, or with line 0 the file is
    /// missing or too long; nothing was read or written.
    BadPicks { line: u32 },
    /// 6: the source gave a byte past the limit of a stream, and no write failed.
    StreamTooLong,
    /// 7: the shelf failed at the picks file; nothing was read or written.
    PicksFault,
}

impl Status {
    /// The number with which the program ends.
    pub fn number(self) -> u8
        ensures { result ≡ number_of self }
    {
        match self {
            Status::Done => 0,
            Status::BadWords => 1,
            Status::ReadFault => 2,
            Status::WriteFault => 3,
            Status::NoMemory => 4,
            Status::BadPicks { .. } => 5,
            Status::StreamTooLong => 6,
            Status::PicksFault => 7,
        }
    }

    /// The name that is printed on standard error, for a status other than Done.
    pub fn name(self) -> &'static str
        ensures { result.now ≡ name_of self }
    {
        match self {
            Status::Done => "Done",
            Status::BadWords => "BadWords",
            Status::ReadFault => "ReadFault",
            Status::WriteFault => "WriteFault",
            Status::NoMemory => "NoMemory",
            Status::BadPicks { .. } => "BadPicks",
            Status::StreamTooLong => "StreamTooLong",
            Status::PicksFault => "PicksFault",
        }
    }
}

/// The program's status at the end of a session.
pub fn status_of(status: SessionStatus) -> Status
    ensures { result ≡ status_of status }
{
    match status {
        SessionStatus::Done => Status::Done,
        SessionStatus::ReadFault => Status::ReadFault,
        SessionStatus::WriteFault => Status::WriteFault,
        SessionStatus::NoMemory => Status::NoMemory,
        SessionStatus::StreamTooLong => Status::StreamTooLong,
    }
}
