//! The notebook: versions on branches, and the edits that make them.
//!
//! Start at `Notebook::accept`. `specs/Notebook.antt` says what the notebook is after some edits,
//! and `docs/FORMATS.md`, "Limits", how large it may grow. What an edit line says is not here, but in
//! `edit_wire`; running a version's cells is not here, but in `cell_model`.
#![tactic(auto)]

mod head;
mod limits;
mod made;
mod notebook;
mod place;
#[cfg(test)]
mod tests;
#[cfg(test)]
mod tests_fetch;
mod told;
mod version;

pub use head::Head;
pub use limits::law_of_prefixes;
pub use notebook::Notebook;
pub use place::Place;
pub use told::{Told, fetch};
pub use version::Version;
