//! Commands that change their dataset.
ghost use Rattle.std.specs.Prelude.{◌≡◌, [], ◌∷◌, None, IfOk};
ghost use Rattle.cell_errors.specs.Answers.{Gives};
ghost use Rattle.cell_model.specs.Works.{Works, KeepsSource};
ghost use Rattle.vizual_edits.specs.Commands as spec;
ghost use Rattle.vizual_edits.specs.Commands.{filled, edited};

use crate::reading::read_there;
use cell_errors::EvalFault;
use cell_model::{Reads, WorkFault, Writes};
use column_edits::{
    delete_column, formula, insert_column, keep_columns, move_column, rename_column,
};
use dataset_types::{Picks, Slot, Table};
use expr_lang::Expr;
use row_edits::{delete_row, insert_row, move_row, set_value, sort};
use sheet_commands::Command;
use std::alloc::Global;
use value_types::{ArcOf, Name, NoMemory};

/// What makes a dataset of another.
pub(crate) trait Edit {
    ghost use Rattle.cell_errors.specs.Answers.{Answer, Gives};
    ghost use Rattle.dataset_types.specs.Tables.{TableData};

    ghost gives: { Self → TableData → Answer TableData };

    fn run(&self, alloc: Global, table: &ArcOf<Table>) -> Result<ArcOf<Table>, EvalFault>
        ensures { Gives result (gives self.now table.now) };
}

/// A command on columns or rows. Any other leaves the dataset as it is.
#[derive(Clone, Copy)]
pub(crate) struct ByCommand<'a> {
    pub command: &'a Command,
}

impl<'a> Edit for ByCommand<'a> {
    ghost use Rattle.vizual_edits.specs.Commands.{table_edit};

    ghost gives = { λ e t. table_edit e.command.now t };

    fn run(&self, alloc: Global, table: &ArcOf<Table>) -> Result<ArcOf<Table>, EvalFault> {
        table_edit(alloc, self.command, table)
    }
}

/// A formula whose text is this expression.
#[derive(Clone, Copy)]
pub(crate) struct ByFormula<'a> {
    pub column: &'a Name,
    pub expr: &'a Expr,
    pub picks: &'a Picks,
    pub cell: u32,
}

impl<'a> Edit for ByFormula<'a> {
    ghost use Rattle.column_edits.specs.Formula.{formula};

    ghost gives = { λ e t. formula e.column.now e.expr.now e.picks.now e.cell t };

    fn run(&self, alloc: Global, table: &ArcOf<Table>) -> Result<ArcOf<Table>, EvalFault> {
        formula(alloc, table, self.column, self.expr, self.picks, self.cell)
    }
}

fn table_edit(
    alloc: Global,
    command: &Command,
    table: &ArcOf<Table>,
) -> Result<ArcOf<Table>, EvalFault>
    ensures { Gives result (spec.table_edit command.now table.now) }
{
    let own = table.get();
    match command {
        Command::InsertColumn { name, kind, at, .. } => insert_column(alloc, own, name, *kind, *at),
        Command::DeleteColumn { name, .. } => delete_column(alloc, own, name),
        Command::RenameColumn { name, to, .. } => rename_column(alloc, table, name, to),
        Command::MoveColumn { name, at, .. } => move_column(alloc, table, name, *at),
        Command::KeepColumns { names, .. } => keep_columns(alloc, table, names.as_names()),
        Command::InsertRow { row, after, .. } => insert_row(alloc, own, row, after),
        Command::DeleteRow { row, .. } => delete_row(alloc, own, row),
        Command::MoveRow { row, after, .. } => move_row(alloc, table, row, after),
        Command::SetValue {
            row,
            column,
            value,
            ..
        } => set_value(alloc, table, row, column, value),
        Command::Sort { by, .. } => sort(alloc, table, by),
        Command::Formula { .. }
        | Command::RenameDataset { .. }
        | Command::CopyDataset { .. }
        | Command::DropDataset { .. } => Ok(table.copy(alloc)?),
    }
}

/// One write: this dataset under a name, doubtful or not.
pub(crate) fn fill(
    alloc: Global,
    name: &Name,
    table: ArcOf<Table>,
    doubt: bool,
) -> Result<Writes, NoMemory>
    ensures { IfOk result (λ w. w ≡ filled name.now table doubt ∷ []) }
{
    let mut writes = Writes::new(alloc)?;
    let slot = Slot {
        table: Some(table),
        doubt,
    };
    writes.push(alloc, name.copy(), slot)?;
    Ok(writes)
}

/// The dataset of a name, changed and written, as doubtful as it was.
pub(crate) fn edit_dataset<R: Reads, E: Edit>(
    alloc: Global,
    name: &Name,
    edit: &E,
    reads: &mut R,
) -> Result<Writes, WorkFault>
    requires fresh { R.asked reads.old ≡ [] }
    requires going { R.ended reads.old ≡ None }
    ensures works { Works (edited name.now (E.gives edit.now)) (λ _. name.now ∷ [])
        result (R.asked reads.new) (R.ended reads.new) }
    ensures source { KeepsSource (R.source reads.old) (R.source reads.new) (R.asked reads.new) }
{
    let there = read_there(alloc, name, reads)?;
    let table = edit.run(alloc, &there.table)?;
    Ok(fill(alloc, name, table, there.doubt)?)
}
