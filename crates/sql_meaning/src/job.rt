//! What stays the same while a SELECT is run.
use crate::input::Input;
use dataset_types::Picks;

/// The datasets that were read, and what is picked in the cell.
#[derive(Clone, Copy)]
pub struct Job<'a> {
    pub inputs: &'a [Input],
    pub picks: &'a Picks,
    pub cell: u32,
}
