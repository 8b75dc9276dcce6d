//! The laws of the steps. Each is a call that does nothing, and the law is its contract.
//!
//! `erases`: dropping marks and flags after the step or before it is one thing, errors included. `shows`: what is shown of the
//! result is what the step makes of what is shown. `same`: where two relations show the same, so do the results, whatever the picks.
ghost use Rattle.rel_ops.specs.Laws.{FilterErases, FilterShows, FilterKeepsShown};
ghost use Rattle.rel_ops.specs.Laws.{ProjectErases, ProjectShows, ProjectKeepsShown};
ghost use Rattle.rel_ops.specs.Laws.{SortErases, SortShows, SortKeepsShown};
ghost use Rattle.rel_ops.specs.Orders.{SortOrders};
ghost use Rattle.rel_ops.specs.Laws.{LimitErases, LimitShows, LimitKeepsShown};
ghost use Rattle.rel_ops.specs.Laws.{UnionErases, UnionShows, UnionKeepsShown};

use expr_lang::Expr;
use relations::{Items, SortKeys};

/// The laws of WHERE.
pub fn law_of_filter(condition: &Expr)
    ensures erases { FilterErases condition.now }
    ensures shows { FilterShows condition.now }
    ensures same { FilterKeepsShown condition.now }
{}

/// The laws of the items.
pub fn law_of_project(items: &Items)
    ensures erases { ProjectErases items.now }
    ensures shows { ProjectShows items.now }
    ensures same { ProjectKeepsShown items.now }
{}

/// The laws of ORDER BY. `orders`: the rows are those there were, in order by the keys, and rows of equal keys keep their order.
pub fn law_of_sort(keys: &SortKeys)
    ensures erases { SortErases keys.now }
    ensures shows { SortShows keys.now }
    ensures same { SortKeepsShown keys.now }
    ensures orders { SortOrders keys.now }
{}

/// The laws of LIMIT.
pub fn law_of_limit(count: u64)
    ensures erases { LimitErases count }
    ensures shows { LimitShows count }
    ensures same { LimitKeepsShown count }
{}

/// The laws of UNION ALL.
pub fn law_of_union()
    ensures erases { UnionErases }
    ensures shows { UnionShows }
    ensures same { UnionKeepsShown }
{}
