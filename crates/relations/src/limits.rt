//! The limits of a relation.
ghost use Rattle.std.specs.Prelude.{◌≡◌, false};
ghost use Rattle.relations.specs.Rels as spec;
ghost use Rattle.relations.specs.Rels.{rel_of};

use dataset_types::{Row, few_bytes, few_rows, few_values, ids_short, text_bytes};
use expr_meaning::ScopeColumn;

/// Whether a relation of these columns and rows is within the limits.
pub(crate) fn within_limits(columns: &[ScopeColumn], rows: &[Row]) -> bool
    ensures { result ≡ spec.within_limits (rel_of columns.now rows.now false false) }
{
    few_rows(rows.len())
        && few_values(rows.len(), columns.len())
        && few_bytes(text_bytes(rows))
        && ids_short(rows)
}
