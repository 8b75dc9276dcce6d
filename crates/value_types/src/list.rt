//! Lists of any values, and how a value is written again.
ghost use Rattle.std.specs.Prelude.{◌≡◌, [], ◌∷◌, ◌++◌, length, slice_get, Ok, OnOk, OnErr, IfOk};
ghost use Rattle.std.specs.Option.{option_copied};

use crate::memory::NoMemory;
use std::alloc::Global;
use std::marker::Model;

/// A value that can be written again.
pub trait Copied {
    /// An equal value.
    fn copied(&self, alloc: Global) -> Result<Self, NoMemory>
        ensures { IfOk result (λ v. v ≡ self.now) };
}

/// A `Vec` that contracts see as the list of its elements.
#[derive(Debug, Drop)]
pub struct ListOf<T> {
    items: Vec<T>,
}

impl<T> Model for ListOf<T> {
    ghost use Rattle.std.specs.Prelude.{List};
    ghost use Rattle.std.specs.Coded.{coded_list};

    ghost Value = { List T };

    ghost coded = { coded_list T.code };

    ghost view = { λ it. it.items.items };
}

impl<T> ListOf<T> {
    /// The empty list, which takes no memory.
    pub fn new(alloc: Global) -> Result<ListOf<T>, NoMemory>
        ensures { result ≡ Ok [] }
    {
        Ok(ListOf {
            items: Vec::new(alloc),
        })
    }

    /// How many items it has.
    pub fn len(&self) -> usize
        ensures { result ≡ length self.now }
    {
        self.items.len()
    }

    /// The item at a place, counted from 0; none exactly where the list has no such place.
    pub fn get(&self, at: usize) -> Option<&T>
        ensures { option_copied result ≡ slice_get self.now at }
    {
        self.items.get(at)
    }

    /// The items, as std has them.
    pub fn into_vec(self) -> Vec<T>
        ensures { result.items ≡ self }
    {
        let ListOf { items } = self;
        items
    }

    /// The list of these items, which takes no memory.
    pub fn from_vec(_alloc: Global, items: Vec<T>) -> Result<ListOf<T>, NoMemory>
        ensures { result ≡ Ok items.items }
    {
        Ok(ListOf { items })
    }

    /// The items, lent.
    pub fn as_slice(&self) -> &[T]
        ensures { result.now ≡ self.now }
    {
        self.items.as_slice()
    }
}

impl<T: Drop> ListOf<T> {
    /// One item more, the last.
    pub fn push(&mut self, _alloc: Global, item: T) -> Result<(), NoMemory>
        ensures ok { OnOk result (self.new ≡ self.old ++ item ∷ []) }
        ensures err { OnErr result (self.new ≡ self.old) }
    {
        self.items.push(item)?;
        Ok(())
    }

    /// The items of another list after its own.
    pub fn append(&mut self, alloc: Global, more: ListOf<T>) -> Result<(), NoMemory>
        ensures { OnOk result (self.new ≡ self.old ++ more) }
    {
        for item in more.into_vec() {
            self.push(alloc, item)?;
        }
        Ok(())
    }
}

impl<T: Copied + Drop> ListOf<T> {
    /// An equal list.
    pub fn copy(&self, alloc: Global) -> Result<ListOf<T>, NoMemory>
        ensures { IfOk result (λ it. it ≡ self.now) }
    {
        let mut all = ListOf::new(alloc)?;
        for item in self.as_slice() {
            all.push(alloc, item.copied(alloc)?)?;
        }
        Ok(all)
    }
}

impl<T: PartialEq> PartialEq for ListOf<T> {
    ghost use Rattle.std.specs.Cmp.Lexicographic.{pointwise, lists_per};

    ghost eq = { pointwise T.eq };

    ghost laws = { lists_per T.laws };

    fn eq(&self, other: &ListOf<T>) -> bool {
        self.as_slice() == other.as_slice()
    }
}

impl<T: Eq> Eq for ListOf<T> {
    ghost use Rattle.std.specs.Cmp.Lexicographic.{lists_equiv};

    ghost laws = { lists_equiv T.Eq.laws };
}
