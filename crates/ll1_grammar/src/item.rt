//! The parts of a table.
ghost use Rattle.std.specs.Prelude.{◌≡◌};
ghost use Rattle.ll1_grammar.specs.Table as spec;

/// A part of a right-hand side as it is written.
#[derive(Clone, Copy, Drop, Debug, PartialEq, Eq)]
pub enum Item<R, A> {
    /// A rule at the same depth.
    Here(R),
    /// A rule one level of nesting further in.
    Inside(R),
    /// An action.
    Do(A),
}

/// A rule, and the number of levels that may still open inside it.
#[derive(Clone, Copy, Drop, Debug, PartialEq, Eq)]
pub struct Bounded<R> {
    pub rule: R,
    pub room: u8,
}

/// Whether there is room for these items: what nests needs a level.
pub fn fits<R, A>(room: u8, items: &[Item<R, A>]) -> bool
    ensures { result ≡ spec.fits room items.now }
{
    if room > 0 {
        return true;
    }
    for item in items {
        if let Item::Inside(_) = item {
            return false;
        }
    }
    true
}
