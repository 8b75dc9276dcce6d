//! A list of bytes.
ghost use Rattle.std.specs.Prelude.{◌≡◌, ◌++◌, [], ◌∷◌, length, slice_get, IfOk, OnOk, OnErr, Ok};
ghost use Rattle.std.specs.Option.{option_copied};

use crate::list::Copied;
use crate::memory::NoMemory;
use std::alloc::Global;
use std::marker::Model;

/// Bytes of any kind, which contracts see as their list.
#[derive(Debug, Drop)]
pub struct Bytes {
    bytes: Vec<u8>,
}

impl Model for Bytes {
    ghost use Rattle.std.specs.Prelude.{List, ℕ};

    ghost Value = { List ℕ };

    ghost view = { λ b. b.bytes.items };
}

impl Bytes {
    /// No bytes, which takes no memory.
    pub fn new(alloc: Global) -> Result<Bytes, NoMemory>
        ensures { result ≡ Ok [] }
    {
        Ok(Bytes {
            bytes: Vec::new(alloc),
        })
    }

    /// A copy of these bytes.
    pub fn from_slice(alloc: Global, bytes: &[u8]) -> Result<Bytes, NoMemory>
        ensures { IfOk result (λ b. b ≡ bytes.now) }
    {
        Ok(Bytes {
            bytes: bytes.to_vec(alloc)?,
        })
    }

    /// One byte more, the last.
    pub fn push(&mut self, _alloc: Global, byte: u8) -> Result<(), NoMemory>
        ensures ok { OnOk result (self.new ≡ self.old ++ byte ∷ []) }
        ensures err { OnErr result (self.new ≡ self.old) }
    {
        self.bytes.push(byte)?;
        Ok(())
    }

    /// More bytes after its own.
    pub fn push_slice(&mut self, _alloc: Global, bytes: &[u8]) -> Result<(), NoMemory>
        ensures ok { OnOk result (self.new ≡ self.old ++ bytes.now) }
        ensures err { OnErr result (self.new ≡ self.old) }
    {
        self.bytes.extend_from_slice(bytes)?;
        Ok(())
    }

    /// No bytes are left; the memory is kept.
    pub fn clear(&mut self)
        ensures { self.new ≡ [] }
    {
        self.bytes.clear();
    }

    /// How many there are.
    pub fn len(&self) -> usize
        ensures { result ≡ length self.now }
    {
        self.bytes.len()
    }

    /// The byte at a place, counted from 0; none exactly where there is no such place.
    pub fn get(&self, at: usize) -> Option<u8>
        ensures { result ≡ slice_get self.now at }
    {
        self.bytes.as_slice().get(at).copied()
    }

    /// The bytes, lent.
    pub fn as_slice(&self) -> &[u8]
        ensures { result.now ≡ self.now }
    {
        self.bytes.as_slice()
    }

    /// Equal bytes.
    pub fn copy(&self, alloc: Global) -> Result<Bytes, NoMemory>
        ensures { IfOk result (λ b. b ≡ self.now) }
    {
        Bytes::from_slice(alloc, self.as_slice())
    }
}

impl Copied for Bytes {
    fn copied(&self, alloc: Global) -> Result<Bytes, NoMemory> {
        self.copy(alloc)
    }
}
