//! Why a cell is in error, and what a call that can be in error answers.
use value_types::NoMemory;

/// Why a cell is in error.
#[derive(Clone, Copy, Debug, PartialEq, Eq)]
pub enum CellError {
    /// The text isn't in its grammar; `at` is a byte offset.
    Syntax { at: u32 },
    /// A dataset that is read isn't there.
    NoDataset,
    /// A column, or a place of one, isn't there.
    NoColumn,
    /// A value or an operand has a type that doesn't fit.
    TypeFault,
    /// A number passes the range of its type.
    Overflow,
    /// A division by zero.
    ZeroDivisor,
    /// A limit is passed.
    TooLarge,
    /// The fuel is used up.
    Fuel,
    /// A name stands twice or is in use.
    NameTaken,
    /// A row isn't there.
    NoRow,
    /// The id of a new row is in use.
    RowTaken,
    /// A loaded file has no record.
    NoHeader,
    /// A text can't be read as the type that it is cast to.
    BadCast,
}

/// What a call answers that gives no value: the error that its meaning gives, or want of memory.
#[derive(Clone, Copy, Debug, PartialEq, Eq)]
pub enum EvalFault {
    Error(CellError),
    NoMemory,
}

impl From<NoMemory> for EvalFault {
    ghost use Rattle.std.specs.Prelude.{◌≡◌};
    ghost use Rattle.cell_errors.specs.declared.fault.EvalFault.TheVariants as fault;

    ghost from_gives = { λ _ e. e ≡ fault.NoMemory };

    fn from(_want: NoMemory) -> EvalFault {
        EvalFault::NoMemory
    }
}

impl From<CellError> for EvalFault {
    ghost use Rattle.std.specs.Prelude.{◌≡◌};
    ghost use Rattle.cell_errors.specs.declared.fault.EvalFault.TheVariants as fault;

    ghost from_gives = { λ c e. e ≡ fault.Error c };

    fn from(error: CellError) -> EvalFault {
        EvalFault::Error(error)
    }
}
