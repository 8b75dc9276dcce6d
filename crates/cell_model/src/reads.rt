//! Where a running cell reads its datasets.
ghost use Rattle.std.specs.Prelude.{◌≡◌, ℕ, List, IfOk, IfErr, IfSome, None, OnOk};
ghost use Rattle.cell_model.specs.Reading.{Answers, Ends};
ghost use Rattle.cell_model.specs.declared.reads.Ended.TheVariants.{NoMemory as Starves};

use dataset_types::{Slot, Slots};
use std::alloc::Global;
use value_types::{Name, NoMemory};

/// Why a read ended its cell's run.
#[derive(Drop)]
pub enum Ended {
    /// The slot of this name is no longer the one that was answered.
    Stale(Name),
    /// A cell before it is in error.
    Stopped,
    /// The run is no longer the cell's.
    Foreign,
    NoMemory,
}

impl Ended {
    /// The same end once more. It takes no memory.
    pub fn copy(&self) -> Ended
        ensures { result ≡ self.now }
    {
        match self {
            Ended::Stale(name) => Ended::Stale(name.copy()),
            Ended::Stopped => Ended::Stopped,
            Ended::Foreign => Ended::Foreign,
            Ended::NoMemory => Ended::NoMemory,
        }
    }
}

impl From<NoMemory> for Ended {
    ghost from_gives = { λ _ e. e ≡ Starves };

    fn from(_: NoMemory) -> Ended {
        Ended::NoMemory
    }
}

/// Where a running cell reads.
pub trait Reads {
    ghost use Rattle.std.specs.Prelude.{List, ℕ};
    ghost use Rattle.std.specs.declared.option.Option.{Option};
    ghost use Rattle.dataset_types.specs.declared.slot.Slot.{Slot};
    ghost use Rattle.dataset_types.specs.declared.slot.Named.{Named};
    ghost use Rattle.cell_model.specs.declared.reads.Ended.{Ended};

    /// The names and slots that were answered so far, each name once.
    ghost asked: { Self → List Named };

    /// The end that a read answered, other than want of memory.
    ghost ended: { Self → Option Ended };

    /// The environment that the answers come from, where it is one.
    ghost source: { Self → Option (List ℕ → Slot) };

    /// The slot of a name.
    fn read(&mut self, alloc: Global, name: &Name) -> Result<Slot, Ended>
        requires { ended self.old ≡ None }
        ensures ok { IfOk result (λ s. Answers (asked self.old) name.now s (asked self.new)) }
        ensures goes_on { OnOk result (ended self.new ≡ None) }
        ensures err { IfErr result (λ e.
            (asked self.new ≡ asked self.old) × Ends e (ended self.new)) }
        ensures source { source self.new ≡ source self.old }
        ensures agrees { IfOk result (λ s. IfSome (source self.old) (λ look. look name.now ≡ s)) };

    /// The names and slots that were answered so far, written again: what a record keeps of a run.
    fn answered(&self, alloc: Global) -> Result<Slots, NoMemory>
        ensures { IfOk result (λ slots. slots ≡ asked self.now) };
}
