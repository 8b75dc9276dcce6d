//! What a name stands for.
ghost use Rattle.std.specs.Prelude.{◌≡◌, IfOk};
ghost use Rattle.expr_meaning.specs.Names as spec;
ghost use Rattle.expr_meaning.specs.Sees.{lent, lent_option};

use cell_errors::CellError;
use value_types::Name;

/// Something that a name can stand for.
pub trait Named {
    ghost use Rattle.std.specs.Prelude.{ℕ, List, Option};

    ghost qualifier_of: { Self → Option (List ℕ) };

    ghost name_of: { Self → List ℕ };

    fn qualifier(&self) -> &Option<Name>
        ensures { result.now ≡ qualifier_of self.now };

    fn name(&self) -> &Name
        ensures { result.now ≡ name_of self.now };
}

fn is_asked(free: bool, written: &Option<Name>, qualifier: &Option<Name>) -> bool
    ensures { result ≡ spec.is_asked free written.now qualifier.now }
{
    if free {
        return qualifier.is_none();
    }
    match written {
        None => true,
        Some(written) => match qualifier {
            None => false,
            Some(qualifier) => qualifier.same(written),
        },
    }
}

fn is_match<T: Named>(free: bool, written: &Option<Name>, name: &Name, item: &T) -> bool
    ensures { result ≡ spec.is_meant T.qualifier_of T.name_of free written.now name.now item.now }
{
    is_asked(free, written, item.qualifier()) && item.name().same(name)
}

/// The only one that is asked for, if there is any.
fn matching<'a, T: Named>(
    items: &'a [T],
    free: bool,
    written: &Option<Name>,
    name: &Name,
) -> Result<Option<&'a T>, CellError>
    ensures { let found = spec.matching T.qualifier_of T.name_of free written.now name.now in
        lent_option result ≡ found items.entry.now }
{
    let mut found: Option<&'a T> = None;
    for item in items {
        if is_match(free, written, name, item) {
            if found.is_some() {
                return Err(CellError::NoColumn);
            }
            found = Some(item);
        }
    }
    Ok(found)
}

/// The one of the written qualifier. For a bare name it is the one without a qualifier, else the one of any.
///
/// - Error: `NoColumn` exactly where there is none, or two of them.
pub fn meant<'a, T: Named>(
    items: &'a [T],
    qualifier: &Option<Name>,
    name: &Name,
) -> Result<&'a T, CellError>
    ensures { let found = spec.meant T.qualifier_of T.name_of qualifier.now name.now in
        lent result ≡ found items.entry.now }
{
    if qualifier.is_none() {
        if let Some(free) = matching(items, true, &None, name)? {
            return Ok(free);
        }
    }
    match matching(items, false, qualifier, name)? {
        None => Err(CellError::NoColumn),
        Some(item) => Ok(item),
    }
}
