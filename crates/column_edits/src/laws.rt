//! The laws of the commands. Each is a call that does nothing, and the law is its contract.
//!
//! `erases`: dropping marks and flags after the command or before it is one thing, errors included. `shows`: what is shown of
//! the result is what the command makes of what is shown. `same`: where two tables show the same, so do the results, whatever
//! the picks.
ghost use Rattle.column_edits.specs.Formula as spec;
ghost use Rattle.column_edits.specs.Laws.{ChangeErases, ChangeShows, ChangeKeepsShown};
ghost use Rattle.column_edits.specs.Laws.{Erases, Shows, KeepsShown};
ghost use Rattle.column_edits.specs.Plans.{insertion, deletion, renaming, moving, keeping};

use dataset_types::Picks;
use expr_lang::Expr;
use value_types::{ColumnType, Name, Names};

/// The laws of `insert_column`.
pub fn law_of_insertion(name: &Name, kind: ColumnType, at: u32)
    ensures erases { ChangeErases (insertion name.now kind at) }
    ensures shows { ChangeShows (insertion name.now kind at) }
    ensures same { ChangeKeepsShown (insertion name.now kind at) }
{}

/// The laws of `delete_column`.
pub fn law_of_deletion(name: &Name)
    ensures erases { ChangeErases (deletion name.now) }
    ensures shows { ChangeShows (deletion name.now) }
    ensures same { ChangeKeepsShown (deletion name.now) }
{}

/// The laws of `rename_column`.
pub fn law_of_renaming(name: &Name, to: &Name)
    ensures erases { ChangeErases (renaming name.now to.now) }
    ensures shows { ChangeShows (renaming name.now to.now) }
    ensures same { ChangeKeepsShown (renaming name.now to.now) }
{}

/// The laws of `move_column`.
pub fn law_of_moving(name: &Name, at: u32)
    ensures erases { ChangeErases (moving name.now at) }
    ensures shows { ChangeShows (moving name.now at) }
    ensures same { ChangeKeepsShown (moving name.now at) }
{}

/// The laws of `keep_columns`.
pub fn law_of_keeping(names: &Names)
    ensures erases { ChangeErases (keeping names.now) }
    ensures shows { ChangeShows (keeping names.now) }
    ensures same { ChangeKeepsShown (keeping names.now) }
{}

/// The laws of `formula`.
pub fn law_of_formula(column: &Name, expr: &Expr, picks: &Picks, others: &Picks, cell: u32)
    ensures erases { Erases (spec.formula column.now expr.now picks.now cell)
        (spec.plain_formula column.now expr.now picks.now cell) }
    ensures shows { Shows (spec.formula column.now expr.now picks.now cell)
        (spec.shown_formula column.now expr.now) }
    ensures same { KeepsShown (spec.formula column.now expr.now picks.now cell)
        (spec.formula column.now expr.now others.now cell) }
{}
