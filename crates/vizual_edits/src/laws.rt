//! The laws of spreadsheet commands. They are a call that does nothing, and the laws are its contract.
ghost use Rattle.vizual_edits.specs.Laws.{Erases, KeepsShown};

use dataset_types::Picks;
use sheet_commands::Command;

/// Dropping marks, doubt and flags after a command or before it is one thing, errors included; and what a command writes shows the
/// same in environments that show the same, whatever the picks.
pub fn law_of_commands(command: &Command, cell: u32, picks: &Picks, others: &Picks)
    ensures erases { Erases command.now cell picks.now }
    ensures same { KeepsShown command.now cell picks.now others.now }
{}
