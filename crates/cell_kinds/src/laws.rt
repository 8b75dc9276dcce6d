//! The laws of runs. Each is a call that does nothing, and the law is its contract.
ghost use Rattle.std.specs.Prelude.{List};
ghost use Rattle.cell_model.specs.declared.cell.Cell.{Cell};
ghost use Rattle.cell_model.specs.declared.run.Policy.{Policy};
ghost use Rattle.cell_kinds.specs.Laws.{Erases};

/// Without its marks, doubt and flags, the run of cells is their plain run, errors included.
pub fn law_of_erasure()
    ensures { (p : Policy) (cells : List Cell) → Erases p cells }
{}
