//! What each command makes of the columns: the layout of its result, or its error.
ghost use Rattle.std.specs.Prelude.{◌≡◌, IfOk};
ghost use Rattle.cell_errors.specs.Answers.{Gives};
ghost use Rattle.column_edits.specs.Plans as spec;

use crate::layout::{LaidColumn, Layout, as_they_stand};
use cell_errors::{CellError, EvalFault};
use dataset_types::Column;
use std::alloc::Global;
use value_types::{ColumnType, Name, NoMemory};

/// Whether a column has this name.
pub(crate) fn has_name(name: &Name, laid: &LaidColumn) -> bool
    ensures { result ≡ spec.has_name name.now laid.now }
{
    name.same(&laid.column.name)
}

/// The column of a name, written again.
pub(crate) fn find(
    alloc: Global,
    name: &Name,
    layout: &[LaidColumn],
) -> Result<LaidColumn, EvalFault>
    ensures { Gives result (spec.find name.now layout.now) }
{
    for laid in layout {
        if has_name(name, laid) {
            return Ok(laid.copy(alloc)?);
        }
    }
    Err(EvalFault::Error(CellError::NoColumn))
}

fn others(alloc: Global, name: &Name, layout: &[LaidColumn]) -> Result<Layout, NoMemory>
    ensures { IfOk result (λ l. l ≡ spec.others name.now layout.now) }
{
    let mut all = Layout::new(alloc)?;
    for laid in layout {
        if !has_name(name, laid) {
            all.push(alloc, laid.copy(alloc)?)?;
        }
    }
    Ok(all)
}

fn is_place(at: u32, count: usize) -> bool
    ensures { result ≡ spec.is_place at count }
{
    1 <= at && at as usize <= count
}

fn is_taken(name: &Name, layout: &[LaidColumn]) -> bool
    ensures { result ≡ spec.is_taken name.now layout.now }
{
    layout.iter().any(|laid| has_name(name, laid))
}

// A place behind the end is the end.
fn put(alloc: Global, at: u32, column: LaidColumn, layout: Layout) -> Result<Layout, NoMemory>
    ensures { IfOk result (λ l. l ≡ spec.put at column layout) }
{
    let mut all = layout.into_vec();
    let place = (at as usize).saturating_sub(1).min(all.len());
    all.insert(place, column)?;
    Layout::from_vec(alloc, all)
}

fn new_column(name: &Name, kind: ColumnType) -> LaidColumn
    ensures { result ≡ spec.new_column name.now kind }
{
    LaidColumn {
        column: Column {
            name: name.copy(),
            kind,
        },
        source: None,
    }
}

/// The columns, and a new one before place `at`.
pub(crate) fn insertion(
    alloc: Global,
    name: &Name,
    kind: ColumnType,
    at: u32,
    columns: &[Column],
) -> Result<Layout, EvalFault>
    ensures { Gives result (spec.insertion name.now kind at columns.now) }
{
    if !is_place(at, columns.len() + 1) {
        return Err(EvalFault::Error(CellError::NoColumn));
    }
    let layout = as_they_stand(alloc, columns)?;
    if is_taken(name, layout.as_slice()) {
        return Err(EvalFault::Error(CellError::NameTaken));
    }
    Ok(put(alloc, at, new_column(name, kind), layout)?)
}

/// The columns but that of a name.
pub(crate) fn deletion(alloc: Global, name: &Name, columns: &[Column]) -> Result<Layout, EvalFault>
    ensures { Gives result (spec.deletion name.now columns.now) }
{
    let layout = as_they_stand(alloc, columns)?;
    find(alloc, name, layout.as_slice())?;
    Ok(others(alloc, name, layout.as_slice())?)
}

fn under(alloc: Global, to: &Name, laid: &LaidColumn) -> Result<LaidColumn, NoMemory>
    ensures { IfOk result (λ c. c ≡ spec.under to.now laid.now) }
{
    Ok(LaidColumn {
        column: Column {
            name: to.copy(),
            kind: laid.column.kind,
        },
        source: laid.source,
    })
}

fn renamed(alloc: Global, name: &Name, to: &Name, layout: &[LaidColumn]) -> Result<Layout, NoMemory>
    ensures { IfOk result (λ l. l ≡ spec.renamed name.now to.now layout.now) }
{
    let mut all = Layout::new(alloc)?;
    for laid in layout {
        let column = if has_name(name, laid) {
            under(alloc, to, laid)?
        } else {
            laid.copy(alloc)?
        };
        all.push(alloc, column)?;
    }
    Ok(all)
}

/// The columns, one of them under another name.
pub(crate) fn renaming(
    alloc: Global,
    name: &Name,
    to: &Name,
    columns: &[Column],
) -> Result<Layout, EvalFault>
    ensures { Gives result (spec.renaming name.now to.now columns.now) }
{
    let layout = as_they_stand(alloc, columns)?;
    find(alloc, name, layout.as_slice())?;
    let rest = others(alloc, name, layout.as_slice())?;
    if is_taken(to, rest.as_slice()) {
        return Err(EvalFault::Error(CellError::NameTaken));
    }
    Ok(renamed(alloc, name, to, layout.as_slice())?)
}

/// The columns, one of them at place `at`.
pub(crate) fn moving(
    alloc: Global,
    name: &Name,
    at: u32,
    columns: &[Column],
) -> Result<Layout, EvalFault>
    ensures { Gives result (spec.moving name.now at columns.now) }
{
    let layout = as_they_stand(alloc, columns)?;
    let column = find(alloc, name, layout.as_slice())?;
    if !is_place(at, columns.len()) {
        return Err(EvalFault::Error(CellError::NoColumn));
    }
    let rest = others(alloc, name, layout.as_slice())?;
    Ok(put(alloc, at, column, rest)?)
}

#[tactic(auto, using(relations::proofs::Collecting::collecting))]
fn find_all(alloc: Global, names: &[Name], layout: &[LaidColumn]) -> Result<Layout, EvalFault>
    ensures { Gives result (spec.find_all names.now layout.now) }
{
    let mut all = Layout::new(alloc)?;
    for name in names {
        let column = find(alloc, name, layout)?;
        all.push(alloc, column)?;
    }
    Ok(all)
}

/// The columns of these names, in the order of the names.
pub(crate) fn keeping(
    alloc: Global,
    names: &[Name],
    columns: &[Column],
) -> Result<Layout, EvalFault>
    ensures { Gives result (spec.keeping names.now columns.now) }
{
    let layout = as_they_stand(alloc, columns)?;
    find_all(alloc, names, layout.as_slice())
}
