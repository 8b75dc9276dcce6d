//! The items of a core, with their names.
ghost use Rattle.std.specs.Prelude.{◌≡◌, ◌<◌, ◌^◌, IfOk, map};
ghost use Rattle.std.specs.Option.{option_copied};
ghost use Rattle.rel_ops.specs.Project as project;
ghost use Rattle.sql_plan.specs.Items as spec;

use expr_lang::Expr;
use expr_meaning::ScopeColumn;
use relations::{Item, Items};
use sql_parse::{CoreItems, ItemText};
use std::alloc::Global;
use value_types::{Name, Names, NoMemory, read_name};

fn own_name(expr: &Expr) -> Option<&Name>
    ensures { option_copied result ≡ spec.own_name expr.now }
{
    match expr {
        Expr::Column { name, .. } => Some(name),
        _ => None,
    }
}

fn position_name(alloc: Global, position: u64) -> Result<Name, NoMemory>
    ensures { IfOk result (λ n. n ≡ spec.position_name position) }
{
    let text = format!(in alloc; "c{position}")?;
    Ok(read_name(text.as_bytes()).unwrap())
}

fn name_of(alloc: Global, position: u64, item: &ItemText) -> Result<Name, NoMemory>
    ensures { IfOk result (λ n. n ≡ (spec.named_item position item.now).name) }
{
    if let Some(name) = &item.name {
        return Ok(name.copy());
    }
    match own_name(&item.expr) {
        Some(name) => Ok(name.copy()),
        None => position_name(alloc, position),
    }
}

fn named_item(alloc: Global, position: u64, item: &ItemText) -> Result<Item, NoMemory>
    ensures { IfOk result (λ i. i ≡ spec.named_item position item.now) }
{
    let name = name_of(alloc, position, item)?;
    let expr = item.expr.copy(alloc)?;
    Ok(Item { expr, name })
}

fn named_items(alloc: Global, items: &[ItemText]) -> Result<Items, NoMemory>
    ensures { IfOk result (λ is. is ≡ spec.named_from 1 items.now) }
{
    let mut all = Items::new(alloc)?;
    for (i, item) in items.iter().enumerate() {
        let item = named_item(alloc, i as u64 + 1, item)?;
        all.push(alloc, item)?;
    }
    Ok(all)
}

fn column_item(alloc: Global, column: &ScopeColumn) -> Result<Item, NoMemory>
    ensures { IfOk result (λ i. i ≡ spec.column_item column.now) }
{
    let ScopeColumn { qualifier, column } = column.copy(alloc)?;
    let name = column.name.copy();
    let expr = Expr::Column {
        qualifier,
        name: column.name,
    };
    Ok(Item { expr, name })
}

fn column_items(alloc: Global, columns: &[ScopeColumn]) -> Result<Items, NoMemory>
    ensures { IfOk result (λ is. is ≡ map spec.column_item columns.now) }
{
    let mut all = Items::new(alloc)?;
    for column in columns {
        let item = column_item(alloc, column)?;
        all.push(alloc, item)?;
    }
    Ok(all)
}

/// The items with their names; `*` stands for all columns in order.
pub(crate) fn items_of(
    alloc: Global,
    columns: &[ScopeColumn],
    items: &CoreItems,
) -> Result<Items, NoMemory>
    ensures { IfOk result (λ is. is ≡ spec.items_of columns.now items.now) }
{
    match items {
        CoreItems::All => column_items(alloc, columns),
        CoreItems::Listed(items) => named_items(alloc, items.as_slice()),
    }
}

/// The names of items.
pub(crate) fn item_names(alloc: Global, items: &[Item]) -> Result<Names, NoMemory>
    ensures { IfOk result (λ ns. ns ≡ project.item_names items.now) }
{
    let mut all = Names::new(alloc)?;
    for item in items {
        all.push(alloc, item.name.copy())?;
    }
    Ok(all)
}
