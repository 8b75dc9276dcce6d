//! Laws of serial runs.
ghost use Rattle.std.specs.Prelude.{◌≡◌, List};
ghost use Rattle.dataset_types.specs.Envs.{empty_env};
ghost use Rattle.cell_model.specs.declared.cell.Cell.{Cell};
ghost use Rattle.cell_model.specs.declared.run.Policy.{Policy};
ghost use Rattle.cell_model.specs.declared.run.Policy.TheVariants.{Stop};
ghost use Rattle.cell_model.specs.Runs.{run_of};
ghost use Rattle.cell_model.specs.Laws.{StopsAtFault, FaultsKeepEnv, IsFreeOfErrors};

use crate::record::CellMeaning;

/// Under `Stop`, after the first result that isn't ok the others are blocked, and the environment stays.
pub fn law_of_stop<W: CellMeaning>()
    ensures { (cells : List Cell) → StopsAtFault (run_of W.meaning Stop cells) }
{}

/// Under both policies a cell in error leaves the environment as it was.
pub fn law_of_faults<W: CellMeaning>()
    ensures { (p : Policy) (cells : List Cell) → FaultsKeepEnv empty_env (run_of W.meaning p cells) }
{}

/// A run free of errors is the same under both policies.
pub fn law_of_policies<W: CellMeaning>()
    ensures { (p q : Policy) (cells : List Cell) → IsFreeOfErrors (run_of W.meaning p cells)
        → run_of W.meaning q cells ≡ run_of W.meaning p cells }
{}
