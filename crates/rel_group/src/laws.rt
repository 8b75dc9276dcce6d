//! The laws of groups. Each is a call that does nothing, and the law is its contract.
//!
//! `erases`: dropping marks and flags after the step or before it is one thing, errors included. `shows`: what is shown of the
//! result is what the step makes of what is shown. `same`: where two relations show the same, so do the results, whatever the
//! picks.
ghost use Rattle.std.specs.Option.{option_copied};
ghost use Rattle.rel_group.specs.Laws.{DistinctErases, DistinctShows, DistinctKeepsShown};
ghost use Rattle.rel_group.specs.Laws.{GroupErases, GroupShows, GroupKeepsShown};

use expr_lang::Expr;
use relations::{ColumnRefs, Items};

/// The laws of GROUP BY, HAVING and the items over groups.
pub fn law_of_group(keys: &ColumnRefs, having: Option<&Expr>, items: &Items)
    ensures erases { GroupErases keys.now (option_copied having.entry) items.now }
    ensures shows { GroupShows keys.now (option_copied having.entry) items.now }
    ensures same { GroupKeepsShown keys.now (option_copied having.entry) items.now }
{}

/// The laws of DISTINCT.
pub fn law_of_distinct()
    ensures erases { DistinctErases }
    ensures shows { DistinctShows }
    ensures same { DistinctKeepsShown }
{}
