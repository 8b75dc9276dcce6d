//! The laws of loading. Each is a call that does nothing, and the law is its contract.
ghost use Rattle.csv_load.specs.Laws.{Erases, ShowsTheSame};

use dataset_types::{Picks, Repair, Types};

/// Without its marks and flags a loaded table is the plain load's, errors included.
pub fn law_of_erasure(bytes: &[u8], types: &Types, repair: Repair, picks: &Picks, cell: u32)
    ensures { Erases bytes.now types.now repair picks.now cell }
{}

/// Where a file gives a table under two lists of picks, the same is shown of both.
pub fn law_of_other_picks(
    bytes: &[u8],
    types: &Types,
    repair: Repair,
    picks: &Picks,
    others: &Picks,
    cell: u32,
)
    ensures { ShowsTheSame bytes.now types.now repair picks.now others.now cell }
{}
