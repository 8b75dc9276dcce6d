//! A shelf of files.
ghost use Rattle.std.specs.Prelude.{◌≡◌, List, ℕ, IfOk, IfSome};
ghost use Rattle.std.specs.declared.option.Option.{Option};
ghost use Rattle.outside_io.specs.Causes.{HasFetchCause};
ghost use Rattle.outside_io.specs.Files.{answer_for};
ghost use Rattle.outside_io.specs.declared.shelf.ShelfFault.TheVariants as fault;

use std::alloc::Global;
use value_types::{Bytes, ListOf, NoMemory, Words};

/// Names and bytes of files; the first entry of a name counts.
pub type Files = ListOf<(Words, Bytes)>;

/// What a shelf has under a name.
#[derive(Debug, Drop)]
pub enum Fetched {
    /// The file's bytes.
    Bytes(Bytes),
    /// There is no such file.
    Missing,
    /// The file has more bytes than the limit.
    TooLong,
}

/// What is wrong with a fetch.
#[derive(Clone, Copy, Debug, PartialEq, Eq)]
pub enum ShelfFault {
    /// The shelf failed; its count of faults rose.
    Failed,
    /// Want of memory; the count stays.
    NoMemory,
}

impl From<NoMemory> for ShelfFault {
    ghost from_gives = { λ _ e. e ≡ fault.NoMemory };

    fn from(_: NoMemory) -> ShelfFault {
        ShelfFault::NoMemory
    }
}

/// Where files are found by their names.
pub trait Shelf {
    /// The names and the bytes of the files, where they are known.
    ghost files: { Self → Option (List (List ℕ × List ℕ)) };

    /// How often the shelf has failed.
    ghost faults: { Self → ℕ };

    /// The bytes of a file that has at most `limit` of them.
    ///
    /// - Error: `Failed` where the shelf fails.
    fn fetch(&mut self, alloc: Global, name: &str, limit: u32) -> Result<Fetched, ShelfFault>
        ensures files { files self.new ≡ files self.old }
        ensures answer { IfOk result (λ f.
            IfSome (files self.old) (λ known. f ≡ answer_for known name.now limit)) }
        ensures cause { HasFetchCause (faults self.old) (faults self.new) result };
}

/// What the first file of a name has, if it has at most `limit` bytes.
pub(crate) fn fetch_from(
    alloc: Global,
    files: &Files,
    name: &str,
    limit: u32,
) -> Result<Fetched, NoMemory>
    ensures { IfOk result (λ f. f ≡ answer_for files.now name.now limit) }
{
    for (known, bytes) in files.as_slice() {
        if known.as_text() == name {
            if bytes.len() > limit as usize {
                return Ok(Fetched::TooLong);
            }
            return Ok(Fetched::Bytes(bytes.copy(alloc)?));
        }
    }
    Ok(Fetched::Missing)
}
