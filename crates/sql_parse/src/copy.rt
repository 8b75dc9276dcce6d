//! Trees, written again.
ghost use Rattle.std.specs.Prelude.{◌≡◌, IfOk};

use crate::columns::{ColumnName, OrderKey};
use crate::cores::{Core, CoreItems, ItemText};
use crate::select::Select;
use crate::tables::{JoinPart, TableRef};
use expr_lang::Expr;
use std::alloc::Global;
use value_types::{Copied, Name, NoMemory};

fn copy_name(name: &Option<Name>) -> Option<Name>
    ensures { result ≡ name.now }
{
    match name {
        None => None,
        Some(name) => Some(name.copy()),
    }
}

fn copy_condition(alloc: Global, condition: &Option<Expr>) -> Result<Option<Expr>, NoMemory>
    ensures { IfOk result (λ c. c ≡ condition.now) }
{
    match condition {
        None => Ok(None),
        Some(expr) => Ok(Some(expr.copy(alloc)?)),
    }
}

impl Select {
    /// An equal SELECT.
    pub fn copy(&self, alloc: Global) -> Result<Select, NoMemory>
        ensures { IfOk result (λ s. s ≡ self.now) }
    {
        Ok(Select {
            cores: self.cores.copy(alloc)?,
            order: self.order.copy(alloc)?,
            limit: self.limit,
        })
    }
}

impl Core {
    /// An equal core.
    pub fn copy(&self, alloc: Global) -> Result<Core, NoMemory>
        ensures { IfOk result (λ c. c ≡ self.now) }
    {
        Ok(Core {
            distinct: self.distinct,
            items: self.items.copy(alloc)?,
            table: self.table.copy(),
            joins: self.joins.copy(alloc)?,
            condition: copy_condition(alloc, &self.condition)?,
            group_by: self.group_by.copy(alloc)?,
            having: copy_condition(alloc, &self.having)?,
        })
    }
}

impl Copied for Core {
    fn copied(&self, alloc: Global) -> Result<Core, NoMemory> {
        self.copy(alloc)
    }
}

impl CoreItems {
    /// Equal items.
    pub fn copy(&self, alloc: Global) -> Result<CoreItems, NoMemory>
        ensures { IfOk result (λ is. is ≡ self.now) }
    {
        match self {
            CoreItems::All => Ok(CoreItems::All),
            CoreItems::Listed(items) => Ok(CoreItems::Listed(items.copy(alloc)?)),
        }
    }
}

impl ItemText {
    /// An equal item.
    pub fn copy(&self, alloc: Global) -> Result<ItemText, NoMemory>
        ensures { IfOk result (λ i. i ≡ self.now) }
    {
        Ok(ItemText {
            expr: self.expr.copy(alloc)?,
            name: copy_name(&self.name),
        })
    }
}

impl Copied for ItemText {
    fn copied(&self, alloc: Global) -> Result<ItemText, NoMemory> {
        self.copy(alloc)
    }
}

impl TableRef {
    /// The same table. It takes no memory.
    pub fn copy(&self) -> TableRef
        ensures { result ≡ self.now }
    {
        TableRef {
            dataset: self.dataset.copy(),
            qualifier: self.qualifier.copy(),
        }
    }
}

impl JoinPart {
    /// An equal join.
    pub fn copy(&self, alloc: Global) -> Result<JoinPart, NoMemory>
        ensures { IfOk result (λ j. j ≡ self.now) }
    {
        Ok(JoinPart {
            left: self.left,
            table: self.table.copy(),
            on: self.on.copy(alloc)?,
        })
    }
}

impl Copied for JoinPart {
    fn copied(&self, alloc: Global) -> Result<JoinPart, NoMemory> {
        self.copy(alloc)
    }
}

impl ColumnName {
    /// The same column. It takes no memory.
    pub fn copy(&self) -> ColumnName
        ensures { result ≡ self.now }
    {
        ColumnName {
            qualifier: copy_name(&self.qualifier),
            name: self.name.copy(),
        }
    }
}

impl Copied for ColumnName {
    fn copied(&self, _alloc: Global) -> Result<ColumnName, NoMemory> {
        Ok(self.copy())
    }
}

impl OrderKey {
    /// The same key. It takes no memory.
    pub fn copy(&self) -> OrderKey
        ensures { result ≡ self.now }
    {
        OrderKey {
            name: self.name.copy(),
            descending: self.descending,
        }
    }
}

impl Copied for OrderKey {
    fn copied(&self, _alloc: Global) -> Result<OrderKey, NoMemory> {
        Ok(self.copy())
    }
}
