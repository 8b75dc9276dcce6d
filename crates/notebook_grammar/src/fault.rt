//! Why a text isn't read.
use std::alloc::{AllocError, AllocFailed};
use value_types::NoMemory;

/// Why a text isn't read.
#[derive(Clone, Copy, Drop, Debug)]
pub enum ParseFault {
    /// The text isn't of the language: `at` is the byte place of the first token that is wrong, or
    /// the text's length where it ends too early.
    Syntax { at: u32 },
    /// Want of memory.
    NoMemory,
}

impl From<NoMemory> for ParseFault {
    ghost use Rattle.std.specs.Prelude.{◌≡◌};
    ghost use Rattle.notebook_grammar.specs.declared.fault.ParseFault.TheVariants as fault;

    ghost from_gives = { λ _ e. e ≡ fault.NoMemory };

    fn from(_none: NoMemory) -> ParseFault {
        ParseFault::NoMemory
    }
}

impl From<AllocError> for ParseFault {
    ghost use Rattle.std.specs.Prelude.{◌≡◌};
    ghost use Rattle.notebook_grammar.specs.declared.fault.ParseFault.TheVariants as fault;

    ghost from_gives = { λ _ e. e ≡ fault.NoMemory };

    fn from(_error: AllocError) -> ParseFault {
        ParseFault::NoMemory
    }
}

impl<T: Drop> From<AllocFailed<T>> for ParseFault {
    ghost use Rattle.std.specs.Prelude.{◌≡◌};
    ghost use Rattle.notebook_grammar.specs.declared.fault.ParseFault.TheVariants as fault;

    ghost from_gives = { λ _ e. e ≡ fault.NoMemory };

    fn from(_failed: AllocFailed<T>) -> ParseFault {
        ParseFault::NoMemory
    }
}
