//! What stands between two UNION ALL.
use crate::columns::ColumnNames;
use crate::tables::{Joins, TableRef};
use expr_lang::Expr;
use value_types::{ListOf, Name};

/// `SELECT items FROM table ..`, up to HAVING.
#[derive(Drop)]
pub struct Core {
    pub distinct: bool,
    pub items: CoreItems,
    /// The table right behind FROM.
    pub table: TableRef,
    pub joins: Joins,
    /// The condition of WHERE.
    pub condition: Option<Expr>,
    pub group_by: ColumnNames,
    pub having: Option<Expr>,
}

/// Cores, in order.
pub type Cores = ListOf<Core>;

/// What a core selects.
#[derive(Drop)]
pub enum CoreItems {
    /// `*`
    All,
    Listed(ItemTexts),
}

/// An item, with the name that AS gives it.
#[derive(Drop)]
pub struct ItemText {
    pub expr: Expr,
    pub name: Option<Name>,
}

/// Items, in order.
pub type ItemTexts = ListOf<ItemText>;
