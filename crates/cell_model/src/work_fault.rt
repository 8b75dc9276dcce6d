//! What a work over reads answers that gives no value.
use crate::reads::Ended;
use cell_errors::{CellError, EvalFault};
use value_types::NoMemory;

/// What a work over reads answers that gives no value: the error that its meaning gives, or an end.
#[derive(Drop)]
pub enum WorkFault {
    Error(CellError),
    /// A read answered it, or it is want of memory.
    Ended(Ended),
}

impl From<CellError> for WorkFault {
    ghost use Rattle.std.specs.Prelude.{◌≡◌};
    ghost use Rattle.cell_model.specs.declared.work_fault.WorkFault.TheVariants as fault;

    ghost from_gives = { λ error f. f ≡ fault.Error error };

    fn from(error: CellError) -> WorkFault {
        WorkFault::Error(error)
    }
}

impl From<Ended> for WorkFault {
    ghost use Rattle.std.specs.Prelude.{◌≡◌};
    ghost use Rattle.cell_model.specs.declared.work_fault.WorkFault.TheVariants as fault;

    ghost from_gives = { λ ended f. f ≡ fault.Ended ended };

    fn from(ended: Ended) -> WorkFault {
        WorkFault::Ended(ended)
    }
}

impl From<NoMemory> for WorkFault {
    ghost use Rattle.std.specs.Prelude.{◌≡◌};
    ghost use Rattle.cell_model.specs.Works.{starved};

    ghost from_gives = { λ _ f. f ≡ starved };

    fn from(_want: NoMemory) -> WorkFault {
        WorkFault::Ended(Ended::NoMemory)
    }
}

impl From<EvalFault> for WorkFault {
    ghost use Rattle.std.specs.Prelude.{◌≡◌};
    ghost use Rattle.cell_model.specs.Works.{work_fault};

    ghost from_gives = { λ fault f. f ≡ work_fault fault };

    fn from(fault: EvalFault) -> WorkFault {
        match fault {
            EvalFault::Error(error) => WorkFault::Error(error),
            EvalFault::NoMemory => WorkFault::Ended(Ended::NoMemory),
        }
    }
}
