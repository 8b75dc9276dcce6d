//! The datasets that a SELECT names.
ghost use Rattle.std.specs.Prelude.{◌≡◌, OnOk, IfOk};
ghost use Rattle.name_lists.specs.Nub.{all_added};
ghost use Rattle.sql_parse.specs.Names as spec;

use crate::cores::Core;
use crate::select::Select;
use name_lists::add_name;
use std::alloc::Global;
use value_types::{ListOf, Names, NoMemory};

/// The names with those of a core too.
fn add_core(alloc: Global, names: &mut Names, core: &Core) -> Result<(), NoMemory>
    ensures { OnOk result (names.new ≡ all_added names.old (spec.datasets_of core.now)) }
{
    add_name(alloc, names, &core.table.dataset)?;
    for join in core.joins.as_slice() {
        add_name(alloc, names, &join.table.dataset)?;
    }
    Ok(())
}

/// The datasets behind FROM and in joins, in the text's order, each once.
pub fn names_of(alloc: Global, select: &Select) -> Result<Names, NoMemory>
    ensures { IfOk result (λ names. names ≡ spec.names_of select.now) }
{
    let mut names = ListOf::new(alloc)?;
    for core in select.cores.as_slice() {
        add_core(alloc, &mut names, core)?;
    }
    Ok(names)
}
