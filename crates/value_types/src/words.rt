//! Texts.
ghost use Rattle.std.specs.Prelude.{◌≡◌, [], ◌∷◌, ◌++◌, length, slice_get, encode_utf8, Ok, OnOk, OnErr, IfOk};
ghost use Rattle.std.specs.Option.{option_copied};

use crate::memory::NoMemory;
use std::alloc::Global;
use std::marker::Model;

/// A UTF-8 text, which contracts see as the list of its bytes.
#[derive(Debug, Drop)]
pub struct Words {
    text: String,
}

impl Model for Words {
    ghost use Rattle.std.specs.Prelude.{List, ℕ};
    ghost use Rattle.std.specs.String.{string_bytes};

    ghost Value = { List ℕ };

    ghost view = { λ w. string_bytes w.text };
}

impl Words {
    /// The empty text, which takes no memory.
    pub fn new(alloc: Global) -> Result<Words, NoMemory>
        ensures { result ≡ Ok [] }
    {
        Ok(Words {
            text: String::new(alloc),
        })
    }

    /// A text after its own.
    pub fn push_text(&mut self, _alloc: Global, text: &str) -> Result<(), NoMemory>
        ensures ok { OnOk result (self.new ≡ self.old ++ text.now) }
        ensures err { OnErr result (self.new ≡ self.old) }
    {
        self.text.push_str(text)?;
        Ok(())
    }

    /// One character more, the last.
    pub fn push_char(&mut self, _alloc: Global, c: char) -> Result<(), NoMemory>
        ensures ok { OnOk result (self.new ≡ self.old ++ encode_utf8 c) }
        ensures err { OnErr result (self.new ≡ self.old) }
    {
        self.text.push(c)?;
        Ok(())
    }

    /// How many bytes it has.
    pub fn len(&self) -> usize
        ensures { result ≡ length self.now }
    {
        self.text.len()
    }

    /// The byte at a place, counted from 0; none exactly where the text has no such place.
    pub fn get(&self, at: usize) -> Option<u8>
        ensures { result ≡ slice_get self.now at }
    {
        self.text.as_bytes().get(at).copied()
    }

    /// The text, lent.
    pub fn as_text(&self) -> &str
        ensures { result.now ≡ self.now }
    {
        self.text.as_str()
    }

    /// Its bytes, lent.
    pub fn as_bytes(&self) -> &[u8]
        ensures { result.now ≡ self.now }
    {
        self.text.as_bytes()
    }

    /// An equal text.
    pub fn copy(&self, alloc: Global) -> Result<Words, NoMemory>
        ensures { IfOk result (λ w. w ≡ self.now) }
    {
        let text = String::from_str(alloc, self.text.as_str())?;
        Ok(Words { text })
    }
}

impl PartialEq for Words {
    ghost use Rattle.std.specs.Prelude.{nat_eq};
    ghost use Rattle.std.specs.Cmp.{partial_equiv_from_equiv};
    ghost use Rattle.std.specs.Cmp.Lexicographic.{pointwise, nat_list_eq_equiv};

    ghost eq = { pointwise nat_eq };

    ghost laws = { partial_equiv_from_equiv nat_list_eq_equiv };

    fn eq(&self, other: &Words) -> bool {
        self.as_text() == other.as_text()
    }
}

impl Eq for Words {
    ghost use Rattle.std.specs.Cmp.Lexicographic.{nat_list_eq_equiv};

    ghost laws = { nat_list_eq_equiv };
}
