//! The laws of joins. Each is a call that does nothing, and the law is its contract.
//!
//! `erases`: dropping marks and flags after the join or before it is one thing, errors included. `shows`: what is shown of the
//! result is what the join makes of what is shown. `same`: where two sides show the same as two others, so do the results, whatever
//! the picks.
ghost use Rattle.rel_join.specs.Laws.{JoinErases, JoinShows, JoinKeepsShown};

use crate::kind::Kind;
use expr_lang::Expr;

/// The laws of JOIN and LEFT JOIN.
pub fn law_of_join(kind: Kind, on: &Expr)
    ensures erases { JoinErases kind on.now }
    ensures shows { JoinShows kind on.now }
    ensures same { JoinKeepsShown kind on.now }
{}
