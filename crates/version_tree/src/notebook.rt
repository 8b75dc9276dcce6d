//! The notebook.
ghost use Rattle.std.specs.Prelude.{◌≡◌, ◌≤◌, ◌<◌, ◌+◌, ◌++◌, ◌∷◌, [], length, take, map, IfOk, IfSome, OnOk, OnErr};
ghost use Rattle.std.specs.Option.{option_copied};
ghost use Rattle.version_tree.specs.Versions.{head_of, cells_of, branch_of};
ghost use Rattle.version_tree.specs.Limits.{ids_of, new_prefixes, prefixes_of};
ghost use Rattle.version_tree.specs.Notebook.{start, with_version};
ghost use Rattle.version_tree.specs.Kept.{AllSmall, HasFront, InPlace, IsPlan, Shares, room_for, Plans};
ghost use Rattle.version_tree.specs.Calls.{Takes, Accepts};

use crate::head::{Head, head_of};
use crate::limits::{MOST_CELLS, MOST_PREFIXES, MOST_VERSIONS, new_ids, new_prefixes};
use crate::made::{cells_between, new_cells};
use crate::place::{Place, place_of};
use crate::told::{Told, ask};
use crate::version::{Version, version_of};
use cell_model::{Cells, EditRefusal};
use dataset_types::Picks;
use edit_wire::{Edit, EditFault};
use outside_io::Shelf;
use std::alloc::Global;
use std::marker::Model;
use value_types::{ArcOf, Name, NoMemory};

/// Versions on branches, the picks that their cells hold, and what was counted of them.
#[derive(Drop)]
pub struct Notebook {
    picks: ArcOf<Picks>,
    versions: Vec<Version>,
    prefixes: usize,
    base: usize,
    front: usize,
}

impl Model for Notebook {
    ghost use Rattle.std.specs.Coded.{codes};
    ghost use Rattle.value_types.specs.contracts.row_id.RowId as row_id;
    ghost use Rattle.version_tree.specs.Notebook.{NotebookData};
    ghost use Rattle.version_tree.specs.Kept.{Small, Shares};

    ghost Value = { NotebookData };

    ghost coded = { Prim.hlevel (codes, row_id.the_row.coded) };

    ghost view = { λ n. record { picks = n.picks; versions = n.versions.items } };

    ghost invariant = { λ n.
        Small n.versions.items n.prefixes × Shares n.versions.items n.base n.front };
}

/// Where an edit goes, and how many distinct prefixes its version adds.
#[derive(Clone, Copy)]
pub struct Plan {
    place: Place,
    added: usize,
}

impl Notebook {
    /// The branch `main` without versions. Each new cell will hold the picks.
    pub fn new(alloc: Global, picks: Picks) -> Result<Notebook, NoMemory>
        ensures { IfOk result (λ n. n ≡ start picks) }
    {
        Ok(Notebook {
            picks: ArcOf::new(alloc, picks)?,
            versions: Vec::new(alloc),
            prefixes: 0,
            base: 0,
            front: 0,
        })
    }

    fn versions(&self) -> &[Version]
        ensures value { result.now ≡ self.now.versions }
        ensures few { length self.now.versions ≤ 256 }
        ensures small { AllSmall self.now.versions }
    {
        self.versions.as_slice()
    }

    /// How many versions there are.
    pub fn len(&self) -> usize
        ensures value { result ≡ length self.now.versions }
        ensures within { result ≤ 256 }
    {
        self.versions().len()
    }

    /// The cells of a version, if it exists.
    #[tactic(auto, using(crate::proofs::Cells::small_of))]
    pub fn cells_of(&self, version: u32) -> Option<&Cells>
        ensures value { option_copied result ≡ cells_of self.now.versions version }
        ensures within { IfSome result (λ cells. length cells.now ≤ 48) }
    {
        match version_of(self.versions(), version as usize) {
            Some(version) => Some(&version.cells),
            None => None,
        }
    }

    /// The branch of a version, if it exists.
    pub fn branch_of(&self, version: u32) -> Option<&Name>
        ensures { option_copied result ≡ branch_of self.now.versions version }
    {
        match version_of(self.versions(), version as usize) {
            Some(version) => Some(&version.branch),
            None => None,
        }
    }

    /// The last version of a branch.
    pub fn branch_head(&self, branch: &Name) -> Head
        ensures { result ≡ head_of self.now.versions branch.now }
    {
        head_of(self.versions(), branch)
    }

    /// The number of an earlier version, and how many first cells the last version shares with it.
    pub fn shared(&self) -> (usize, usize)
        ensures { Shares self.now.versions result.0 result.1 }
    {
        (self.base, self.front)
    }

    /// How many prefixes a version with these ids adds, if there is room for it.
    fn room_for(&self, ids: &[u32]) -> Option<usize>
        ensures value { result ≡ room_for self.now.versions ids.now }
    {
        if self.versions.len() < MOST_VERSIONS && ids.len() <= MOST_CELLS {
            let added = new_prefixes(self.versions.as_slice(), ids);
            if self.prefixes + added <= MOST_PREFIXES {
                return Some(added);
            }
        }
        None
    }

    /// Where an edit goes, or the refusal that it earns before any file is asked for.
    fn plan(&self, alloc: Global, edit: &Edit) -> Result<Plan, EditFault>
        ensures { Plans result self.now.versions edit.now }
    {
        let versions = self.versions();
        let place = match place_of(versions, edit) {
            Ok(place) => place,
            Err(refusal) => return Err(EditFault::Refused(refusal)),
        };
        let ids = new_ids(alloc, versions, edit, place)?;
        match self.room_for(ids.as_slice()) {
            Some(added) => Ok(Plan { place, added }),
            None => Err(EditFault::Refused(EditRefusal::TooMany)),
        }
    }

    /// Puts the new version at the end.
    fn push(&mut self, version: Version, place: Place, added: usize) -> Result<(), NoMemory>
        requires inside { InPlace self.old.versions place }
        requires base { HasFront self.old.versions place version.cells }
        requires front { place.front ≤ length version.cells }
        requires added { added ≡ new_prefixes self.old.versions (ids_of version.cells) }
        requires few { prefixes_of self.old.versions + added ≤ 768 }
        requires room { length self.old.versions < 256 }
        requires short { length version.cells ≤ 48 }
        ensures ok { OnOk result (self.new ≡ with_version self.old version) }
        ensures err { OnErr result (self.new ≡ self.old) }
    {
        self.versions.push(version)?;
        self.base = place.base;
        self.front = place.front;
        self.prefixes += added;
        Ok(())
    }

    /// Makes the version of an edit that has a plan.
    fn put(&mut self, alloc: Global, edit: &Edit, plan: Plan, told: Told) -> Result<u32, EditFault>
        requires { IsPlan self.old.versions edit.now plan.place plan.added }
        ensures { Accepts result self.old edit.now told self.new }
    {
        let versions = self.versions();
        let number = versions.len() as u32 + 1;
        let new = new_cells(alloc, number, &self.picks, &edit.kind, told)?;
        let cells = cells_between(alloc, versions, plan.place, &new)?;
        let branch = edit.branch.copy();
        self.push(Version { branch, cells }, plan.place, plan.added)?;
        Ok(number)
    }

    /// The number of the version that the edit makes, or its refusal. The shelf is asked after all
    /// else is looked at.
    pub fn accept<H: Shelf>(
        &mut self,
        alloc: Global,
        edit: &Edit,
        shelf: &mut H,
    ) -> Result<u32, EditFault>
        ensures files { H.files shelf.new ≡ H.files shelf.old }
        ensures later { H.faults shelf.old ≤ H.faults shelf.new }
        ensures step { Takes result (H.files shelf.old) (H.faults shelf.old) (H.faults shelf.new)
            self.old edit.now self.new }
    {
        let plan = self.plan(alloc, edit)?;
        let told = ask(alloc, &edit.kind, shelf)?;
        self.put(alloc, edit, plan, told)
    }
}
