//! What a command writes.
ghost use Rattle.std.specs.Prelude.{◌≡◌, [], None};
ghost use Rattle.cell_errors.specs.Answers.{and_then};
ghost use Rattle.column_edits.specs.Formula.{formula};
ghost use Rattle.cell_model.specs.Works.{Works, KeepsSource};
ghost use Rattle.text_answers.specs.Answers.{expr_of};
ghost use Rattle.vizual_edits.specs.Commands.{edited, if_text, applied, names_read};

use crate::editing::{ByCommand, ByFormula, edit_dataset};
use crate::renaming::{copy_dataset, drop_dataset, rename_dataset};
use cell_model::{Reads, WorkFault, Writes};
use dataset_types::Picks;
use sheet_commands::Command;
use std::alloc::Global;
use text_answers::parsed_expr;
use value_types::{Name, Words};

// Nothing is read where the text is no expression.
fn apply_formula<R: Reads>(
    alloc: Global,
    dataset: &Name,
    column: &Name,
    text: &Words,
    cell: u32,
    picks: &Picks,
    reads: &mut R,
) -> Result<Writes, WorkFault>
    requires fresh { R.asked reads.old ≡ [] }
    requires going { R.ended reads.old ≡ None }
    ensures works { Works
        (λ look. and_then (expr_of text.now)
        (λ e. edited dataset.now (formula column.now e picks.now cell) look))
        (λ _. if_text (expr_of text.now) dataset.now)
        result (R.asked reads.new) (R.ended reads.new) }
    ensures source { KeepsSource (R.source reads.old) (R.source reads.new) (R.asked reads.new) }
{
    let expr = parsed_expr(alloc, text)?;
    let by = ByFormula {
        column,
        expr: &expr,
        picks,
        cell,
    };
    edit_dataset(alloc, dataset, &by, reads)
}

/// What a command of the cell with an id writes, under these picks.
///
/// - Reads: the dataset, but of a formula only where its text is an expression; a rename and a copy then read the other name.
/// - Marks: the written slot is doubtful where the one that was read was. A renamed and a dropped dataset leave no doubt.
/// - Error: that of a formula's text, `NoDataset`, and then those of the command; an end other than want of memory only where a
///   read answered it in this call.
/// - Source: docs/EDITING.md.
pub fn apply<R: Reads>(
    alloc: Global,
    command: &Command,
    cell: u32,
    picks: &Picks,
    reads: &mut R,
) -> Result<Writes, WorkFault>
    requires fresh { R.asked reads.old ≡ [] }
    requires going { R.ended reads.old ≡ None }
    ensures works { Works (applied command.now cell picks.now) (names_read command.now)
        result (R.asked reads.new) (R.ended reads.new) }
    ensures source { KeepsSource (R.source reads.old) (R.source reads.new) (R.asked reads.new) }
{
    match command {
        Command::Formula {
            dataset,
            column,
            text,
        } => apply_formula(alloc, dataset, column, text, cell, picks, reads),
        Command::RenameDataset { dataset, to } => rename_dataset(alloc, dataset, to, reads),
        Command::CopyDataset { dataset, to } => copy_dataset(alloc, dataset, to, reads),
        Command::DropDataset { dataset } => drop_dataset(alloc, dataset, reads),
        Command::InsertColumn { dataset, .. }
        | Command::DeleteColumn { dataset, .. }
        | Command::RenameColumn { dataset, .. }
        | Command::MoveColumn { dataset, .. }
        | Command::KeepColumns { dataset, .. }
        | Command::InsertRow { dataset, .. }
        | Command::DeleteRow { dataset, .. }
        | Command::MoveRow { dataset, .. }
        | Command::SetValue { dataset, .. }
        | Command::Sort { dataset, .. } => edit_dataset(
            alloc,
            dataset,
            &ByCommand { command },
            reads,
        ),
    }
}
