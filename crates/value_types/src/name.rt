//! Names of datasets, columns and branches.
ghost use Rattle.std.specs.Prelude.{◌≡◌, ◌≤◌, IsTrue, length};
ghost use Rattle.std.specs.Str.{bytes_eq};
ghost use Rattle.std.specs.List.{list_all};
ghost use Rattle.value_types.specs.Names.{is_letter, is_digit, is_name_byte, is_name, name_of};

use crate::list::{Copied, ListOf};
use crate::memory::NoMemory;
use std::alloc::Global;
use std::marker::Model;

/// 1 to 32 bytes of `a` to `z`, `0` to `9` and `_`, the first of them a letter. They are held inline.
#[derive(Debug, Drop)]
pub struct Name {
    bytes: [u8; 32],
    len: u8,
}

impl Model for Name {
    ghost use Rattle.std.specs.Prelude.{List, ℕ, ◌≤◌, take, IsTrue};
    ghost use Rattle.value_types.specs.Names.{is_name};

    ghost Value = { List ℕ };

    ghost view = { λ n. take n.len n.bytes };

    ghost invariant = { λ n. (n.len ≤ 32) × IsTrue (is_name (take n.len n.bytes)) };
}

/// A list of names.
pub type Names = ListOf<Name>;

impl Name {
    /// The bytes of the name, lent.
    pub fn as_slice(&self) -> &[u8]
        ensures value { result.now ≡ self.now }
        ensures name { IsTrue (is_name result.now) }
    {
        &self.bytes[..self.len as usize]
    }

    /// How many bytes it has, 1 to 32.
    pub fn len(&self) -> usize
        ensures value { result ≡ length self.now }
        ensures bound { result ≤ 32 }
    {
        self.len as usize
    }

    /// The name as a text, which it is because its bytes are ASCII.
    pub fn as_text(&self) -> &str
        ensures { result.now ≡ self.now }
    {
        std::str::from_utf8(self.as_slice()).unwrap()
    }

    /// Whether two names are one.
    pub fn same(&self, other: &Name) -> bool
        ensures { result ≡ bytes_eq self.now other.now }
    {
        self.as_slice() == other.as_slice()
    }

    /// The same name once more. It takes no memory.
    pub fn copy(&self) -> Name
        ensures { result ≡ self.now }
    {
        Name {
            bytes: self.bytes,
            len: self.len,
        }
    }
}

impl Copied for Name {
    fn copied(&self, _alloc: Global) -> Result<Name, NoMemory> {
        Ok(self.copy())
    }
}

impl PartialEq for Name {
    ghost use Rattle.std.specs.Prelude.{nat_eq};
    ghost use Rattle.std.specs.Cmp.{partial_equiv_from_equiv};
    ghost use Rattle.std.specs.Cmp.Lexicographic.{pointwise, nat_list_eq_equiv};

    ghost eq = { pointwise nat_eq };

    ghost laws = { partial_equiv_from_equiv nat_list_eq_equiv };

    fn eq(&self, other: &Name) -> bool {
        self.same(other)
    }
}

impl Eq for Name {
    ghost use Rattle.std.specs.Cmp.Lexicographic.{nat_list_eq_equiv};

    ghost laws = { nat_list_eq_equiv };
}

fn is_letter(byte: u8) -> bool
    ensures { result ≡ is_letter byte }
{
    97 <= byte && byte <= 122
}

pub fn is_digit(byte: u8) -> bool
    ensures { result ≡ is_digit byte }
{
    48 <= byte && byte <= 57
}

fn is_name_byte(byte: u8) -> bool
    ensures { result ≡ is_name_byte byte }
{
    is_letter(byte) || is_digit(byte) || byte == 95
}

fn are_name_bytes(bytes: &[u8]) -> bool
    ensures { result ≡ list_all is_name_byte bytes.now }
{
    bytes.iter().all(|byte| is_name_byte(*byte))
}

fn is_name(bytes: &[u8]) -> bool
    ensures { result ≡ is_name bytes.now }
{
    match bytes.split_first() {
        Some((first, rest)) => is_letter(*first) && are_name_bytes(rest) && rest.len() <= 31,
        None => false,
    }
}

/// The name that the bytes are, if they are one.
///
/// - Source: docs/FORMATS.md, "Names".
pub fn read_name(text: &[u8]) -> Option<Name>
    ensures { result ≡ name_of text.now }
{
    if !is_name(text) || text.len() > 32 {
        return None;
    }
    let mut bytes = [0; 32];
    bytes[..text.len()].copy_from_slice(text);
    Some(Name {
        bytes,
        len: text.len() as u8,
    })
}
