//! The notebook of a stream so far, with the runs of its versions.
ghost use Rattle.std.specs.Prelude.{◌≡◌, ◌≤◌, ◌<◌, List, ℕ, IfOk, length, take};
ghost use Rattle.line_reader.specs.Cut.{kept_most};
ghost use Rattle.version_tree.specs.Notebook.{start};
ghost use Rattle.cell_model.specs.declared.run.Policy.TheVariants.{Stop};
ghost use Rattle.cell_model.specs.Answers.{IsRun};
ghost use Rattle.version_tree.specs.Versions.{cells_at};
ghost use Rattle.report_words.specs.Reports.{said, run_at, branch_at, id_at};
ghost use Rattle.report_words.specs.declared.said.Said.TheVariants.{Edits};
ghost use Rattle.session_core.specs.Earned.{Took, IsWhole};
ghost use Rattle.session_core.specs.Books.{IsFront, IsVersion};

use crate::earned::Earned;
use crate::line::read_line;
use cell_kinds::Kinds;
use cell_model::{Policy, Ran, Settled, Trail, run_on};
use dataset_types::Picks;
use edit_wire::{Edit, EditFault};
use kept_runs::Kept;
use outside_io::Shelf;
use report_words::Said;
use std::alloc::Global;
use std::marker::Model;
use value_types::{Name, NoMemory};
use version_tree::Notebook;

/// The notebook of the lines so far, and the runs of its versions.
#[derive(Drop)]
pub struct Book {
    notebook: Notebook,
    kept: Kept<Kinds>,
}

impl Model for Book {
    ghost use Rattle.std.specs.Prelude.{◌≡◌};
    ghost use Rattle.std.specs.Coded.{codes};
    ghost use Rattle.value_types.specs.contracts.row_id.RowId as row_id;
    ghost use Rattle.cell_model.specs.declared.run.Policy.TheVariants.{Stop};
    ghost use Rattle.version_tree.specs.Notebook.{NotebookData};
    ghost use Rattle.session_core.specs.Books.{IsFront};

    ghost Value = { NotebookData };

    ghost coded = { Prim.hlevel (codes, row_id.the_row.coded) };

    ghost view = { λ b. b.notebook };

    ghost invariant = { λ b. (b.kept.policy ≡ Stop) × IsFront b.kept.versions b.notebook.versions };
}

// The run of a version, which goes on from an earlier one's where that is kept.
#[tactic(auto, using(crate::proofs::Fronts::from_nothing))]
fn run_version(
    alloc: Global,
    kept: &mut Kept<Kinds>,
    notebook: &Notebook,
    version: u32,
) -> Result<Ran, NoMemory>
    requires last { version ≡ length notebook.now.versions }
    requires stop { kept.old.policy ≡ Stop }
    requires front { IsFront kept.old.versions notebook.now.versions }
    ensures run { IfOk result (λ r. IsRun r Stop (run_at notebook.now version)) }
    ensures stop { kept.new.policy ≡ Stop }
    ensures front { IsFront kept.new.versions notebook.now.versions }
{
    let Some(cells) = notebook.cells_of(version) else {
        // A version that isn't there has no cells.
        return Ok(Ran::Done(Trail::new(alloc)?));
    };
    if kept.len() + 1 != version as usize {
        return Ok(run_on(
            alloc,
            &Kinds::new(),
            Policy::Stop,
            Trail::new(alloc)?,
            cells.as_slice(),
        ));
    }
    let (base, count) = notebook.shared();
    kept.run(alloc, &Kinds::new(), base, count, cells.as_slice())
}

// The id of the cell at a position, counted from 1.
fn id_at(notebook: &Notebook, version: u32, position: u32) -> u32
    requires { 0 < position }
    ensures { result ≡ id_at (cells_at notebook.now.versions version) position }
{
    let Some(cells) = notebook.cells_of(version) else {
        return 0;
    };
    match cells.get(position as usize - 1) {
        Some(cell) => cell.get().id,
        None => 0,
    }
}

// What a version earns by its run.
#[tactic(auto, using(crate::proofs::Blocks::block_is, crate::proofs::Blocks::starved_is, crate::proofs::Blocks::block_whole))]
fn earned_by(
    alloc: Global,
    notebook: &Notebook,
    version: u32,
    branch: &Name,
    ran: Ran,
) -> Result<Earned, NoMemory>
    requires branch { branch.now ≡ branch_at notebook.now version }
    requires run { IsRun ran Stop (run_at notebook.now version) }
    ensures earned { IfOk result (λ e. IsVersion e notebook.now version) }
    ensures whole { IfOk result (λ e. IsWhole e) }
{
    let branch = branch.copy();
    match ran {
        Ran::Done(trail) => {
            let settled = Settled::from_trail(alloc, &trail)?;
            Ok(Earned::Block {
                version,
                branch,
                settled,
            })
        }
        Ran::Starved { position } => {
            let cell = id_at(notebook, version, position);
            Ok(Earned::Starved {
                version,
                branch,
                position,
                cell,
            })
        }
    }
}

impl Book {
    /// The notebook without versions.
    pub fn new(alloc: Global, picks: Picks) -> Result<Book, NoMemory>
        ensures { IfOk result (λ b. b ≡ start picks) }
    {
        Ok(Book {
            notebook: Notebook::new(alloc, picks)?,
            kept: Kept::new(alloc, Policy::Stop)?,
        })
    }

    // The block of the last version, or a starved block in its place.
    fn run_last(&mut self, alloc: Global, version: u32, branch: &Name) -> Result<Earned, NoMemory>
        requires last { version ≡ length self.old.versions }
        requires branch { branch.now ≡ branch_at self.old version }
        ensures same { self.new ≡ self.old }
        ensures earned { IfOk result (λ e. IsVersion e self.old version) }
        ensures whole { IfOk result (λ e. IsWhole e) }
    {
        let ran = run_version(alloc, &mut self.kept, &self.notebook, version)?;
        earned_by(alloc, &self.notebook, version, branch, ran)
    }

    #[tactic(auto, using(crate::proofs::Taken::took_refused))]
    fn take_edit<H: Shelf>(
        &mut self,
        alloc: Global,
        line: u32,
        edit: &Edit,
        shelf: &mut H,
    ) -> Result<Earned, NoMemory>
        ensures files { H.files shelf.new ≡ H.files shelf.old }
        ensures later { H.faults shelf.old ≤ H.faults shelf.new }
        ensures took { IfOk result (λ e.
            Took (H.files shelf.old) (H.faults shelf.old) (H.faults shelf.new)
            self.old line (Edits edit.now) e self.new) }
        ensures whole { IfOk result (λ e. IsWhole e) }
    {
        match self.notebook.accept(alloc, edit, shelf) {
            Ok(version) => self.run_last(alloc, version, &edit.branch),
            Err(EditFault::Refused(refusal)) => Ok(Earned::Refusal(refusal)),
            Err(EditFault::NoMemory) => Err(NoMemory),
        }
    }

    fn take_said<H: Shelf>(
        &mut self,
        alloc: Global,
        line: u32,
        said: &Said,
        shelf: &mut H,
    ) -> Result<Earned, NoMemory>
        ensures files { H.files shelf.new ≡ H.files shelf.old }
        ensures later { H.faults shelf.old ≤ H.faults shelf.new }
        ensures took { IfOk result (λ e.
            Took (H.files shelf.old) (H.faults shelf.old) (H.faults shelf.new)
            self.old line said.now e self.new) }
        ensures whole { IfOk result (λ e. IsWhole e) }
    {
        match said {
            Said::Nothing => Ok(Earned::Nothing),
            Said::Refuses(refusal) => Ok(Earned::Refusal(*refusal)),
            Said::Edits(edit) => self.take_edit(alloc, line, edit, shelf),
        }
    }

    /// Takes the line with a number, of which the first 65,537 bytes are kept.
    pub fn take_line<H: Shelf>(
        &mut self,
        alloc: Global,
        line: u32,
        kept: &[u8],
        shelf: &mut H,
    ) -> Result<Earned, NoMemory>
        ensures files { H.files shelf.new ≡ H.files shelf.old }
        ensures later { H.faults shelf.old ≤ H.faults shelf.new }
        ensures took { (whole : List ℕ) → kept.now ≡ take kept_most whole
            → IfOk result (λ e.
            Took (H.files shelf.old) (H.faults shelf.old) (H.faults shelf.new)
            self.old line (said whole) e self.new) }
        ensures whole { IfOk result (λ e. IsWhole e) }
    {
        let said = read_line(alloc, kept)?;
        self.take_said(alloc, line, &said, shelf)
    }
}
