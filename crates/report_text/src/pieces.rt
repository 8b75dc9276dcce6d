//! The small pieces that texts are made of.
ghost use Rattle.std.specs.Prelude.{◌≡◌, ◌++◌, ℕ, List, codes, decimal, OnOk};
ghost use Rattle.std.specs.List.{flat_map};
ghost use Rattle.report_text.specs.Report.{listed, text_if};

use std::alloc::Global;
use value_types::{NoMemory, Words};

/// What has a text.
pub trait Shown {
    ghost text: { Self → List ℕ };

    fn push_to(&self, alloc: Global, out: &mut Words) -> Result<(), NoMemory>
        ensures { OnOk result (out.new ≡ out.old ++ text self.now) };
}

pub fn push_number(alloc: Global, out: &mut Words, number: u64) -> Result<(), NoMemory>
    ensures { OnOk result (out.new ≡ out.old ++ decimal number) }
{
    let text = number.to_string(alloc)?;
    out.push_text(alloc, text.as_str())
}

/// The text, where this holds.
pub fn push_if(alloc: Global, out: &mut Words, holds: bool, text: &str) -> Result<(), NoMemory>
    ensures { OnOk result (out.new ≡ out.old ++ text_if holds text.now) }
{
    if holds {
        return out.push_text(alloc, text);
    }
    Ok(())
}

/// The texts of the items, the first after a space, each other after a comma and a space.
pub fn push_listed<T: Shown>(alloc: Global, out: &mut Words, items: &[T]) -> Result<(), NoMemory>
    ensures { OnOk result (out.new ≡ out.old ++ listed T.text items.now) }
{
    let Some((first, rest)) = items.split_first() else {
        return Ok(());
    };
    out.push_text(alloc, " ")?;
    first.push_to(alloc, out)?;
    push_rest(alloc, out, rest)
}

fn push_rest<T: Shown>(alloc: Global, out: &mut Words, items: &[T]) -> Result<(), NoMemory>
    ensures { OnOk result (out.new ≡ out.old ++ flat_map (λ y. codes ", " ++ T.text y) items.now) }
{
    for item in items {
        out.push_text(alloc, ", ")?;
        item.push_to(alloc, out)?;
    }
    Ok(())
}
