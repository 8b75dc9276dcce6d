//! The columns of a row with their values.
ghost use Rattle.std.specs.Prelude.{◌≡◌, ◌++◌, length, IfOk, OnOk};
ghost use Rattle.relations.specs.Bound.{AreUnder, bound, bindings, revalued, with_value};

use dataset_types::Marked;
use expr_meaning::{Binding, Bindings, ScopeColumn};
use std::alloc::Global;
use std::mem;
use value_types::NoMemory;

fn bind_one(alloc: Global, column: &ScopeColumn, value: &Marked) -> Result<Binding, NoMemory>
    ensures { IfOk result (λ b. b ≡ bound column.now value.now) }
{
    let ScopeColumn { qualifier, column } = column.copy(alloc)?;
    Ok(Binding {
        qualifier,
        name: column.name,
        value: value.copy(alloc)?,
    })
}

/// The columns with their values, put after what is there.
#[tactic(auto, using(crate::proofs::Binds::no_values))]
pub fn bind_more(
    alloc: Global,
    row: &mut Bindings,
    columns: &[ScopeColumn],
    values: &[Marked],
) -> Result<(), NoMemory>
    ensures { OnOk result (row.new ≡ row.old ++ bindings columns.now values.now) }
{
    for i in 0..columns.len() {
        if values.len() <= i {
            return Ok(());
        }
        row.push(alloc, bind_one(alloc, &columns[i], &values[i])?)?;
    }
    Ok(())
}

/// The columns with their values.
pub fn bind(alloc: Global, columns: &[ScopeColumn], values: &[Marked]) -> Result<Bindings, NoMemory>
    ensures { IfOk result (λ row. row ≡ bindings columns.now values.now) }
{
    let mut row = Bindings::new(alloc)?;
    bind_more(alloc, &mut row, columns, values)?;
    Ok(row)
}

fn put_value(alloc: Global, binding: &mut Binding, value: &Marked) -> Result<(), NoMemory>
    ensures { OnOk result (binding.new ≡ with_value binding.old value.now) }
{
    binding.value = value.copy(alloc)?;
    Ok(())
}

#[tactic(auto, using(crate::proofs::Revalued::putting))]
fn put_values(alloc: Global, row: &mut Vec<Binding>, values: &[Marked]) -> Result<(), NoMemory>
    requires { length row.old.items ≡ length values.now }
    ensures { OnOk result (row.new.items ≡ revalued row.old.items values.now) }
{
    for i in 0..values.len() {
        put_value(alloc, &mut row[i], &values[i])?;
    }
    Ok(())
}

/// The bindings of a row become those of another row of the same columns. Where it has as many values, no name is written again.
#[tactic(auto, using(crate::proofs::Revalued::again))]
pub fn bind_again(
    alloc: Global,
    row: &mut Bindings,
    columns: &[ScopeColumn],
    values: &[Marked],
) -> Result<(), NoMemory>
    requires { AreUnder columns.now row.old }
    ensures { OnOk result (row.new ≡ bindings columns.now values.now) }
{
    if row.len() == values.len() {
        let mut items = mem::replace(row, Bindings::new(alloc)?).into_vec();
        put_values(alloc, &mut items, values)?;
        *row = Bindings::from_vec(alloc, items)?;
    } else {
        *row = bind(alloc, columns, values)?;
    }
    Ok(())
}
