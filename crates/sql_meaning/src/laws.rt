//! The laws of SELECT. It is a call that does nothing, and the laws are its contract.
//!
//! `erases`: dropping marks, flags and doubt after the SELECT or before it is one thing, errors included. `same`: where two
//! environments show the same of the datasets that it names, so do its results, whatever the picks.
ghost use Rattle.sql_meaning.specs.Laws.{SelectErases, SelectKeepsShown};

use sql_parse::Select;

/// The laws of SELECT as a whole.
pub fn law_of_select(select: &Select)
    ensures erases { SelectErases select.now }
    ensures same { SelectKeepsShown select.now }
{}
