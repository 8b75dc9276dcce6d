//! Whether no column stands on both sides.
ghost use Rattle.std.specs.Prelude.{◌≡◌, IsTrue};
ghost use Rattle.std.specs.List.{list_any};
ghost use Rattle.rel_join.specs.Rules as spec;

use expr_meaning::ScopeColumn;
use relations::Rel;
use value_types::Name;

fn same_qualifier(a: &Option<Name>, b: &Option<Name>) -> bool
    ensures { result ≡ spec.same_qualifier a.now b.now }
{
    match (a, b) {
        (None, None) => true,
        (Some(a), Some(b)) => a.same(b),
        _ => false,
    }
}

fn same_key(a: &ScopeColumn, b: &ScopeColumn) -> bool
    ensures { result ≡ spec.same_key a.now b.now }
{
    same_qualifier(&a.qualifier, &b.qualifier) && a.column.name.same(&b.column.name)
}

fn stands_in(column: &ScopeColumn, others: &[ScopeColumn]) -> bool
    ensures { result ≡ list_any (spec.same_key column.now) others.now }
{
    others.iter().any(|other| same_key(column, other))
}

fn columns_apart(left: &Rel, right: &Rel) -> bool
    ensures { result ≡ spec.are_apart left.now.columns right.now.columns }
{
    let others = right.columns().as_slice();
    left.columns()
        .as_slice()
        .iter()
        .all(|column| !stands_in(column, others))
}

/// Whether no column stands on both sides, by its qualifier and its name.
pub fn are_apart(left: &Rel, right: &Rel) -> bool
    ensures value { result ≡ spec.are_apart left.now.columns right.now.columns }
    ensures apart { IsTrue result → spec.AreApart left.now.columns right.now.columns }
{
    columns_apart(left, right)
}
