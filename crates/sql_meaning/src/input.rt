//! The datasets that a SELECT reads.
ghost use Rattle.std.specs.Prelude.{◌≡◌};
ghost use Rattle.sql_meaning.specs.Inputs as spec;

use dataset_types::Table;
use value_types::{ArcOf, ListOf, Name};

/// A dataset that was read, under its name.
#[derive(Drop)]
pub struct Input {
    pub name: Name,
    pub table: ArcOf<Table>,
    /// Whether its slot is in doubt.
    pub doubt: bool,
}

/// Datasets that were read, in order.
pub type Inputs = ListOf<Input>;

/// Whether one of them is in doubt.
pub(crate) fn any_doubt(inputs: &[Input]) -> bool
    ensures { result ≡ spec.any_doubt inputs.now }
{
    inputs.iter().any(|input| input.doubt)
}
