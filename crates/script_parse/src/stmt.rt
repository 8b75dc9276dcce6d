//! Statements.
use expr_lang::{Expr, Exprs};
use value_types::{ListOf, Name};

/// A dataset that a text names, or one whose name is computed.
#[derive(Drop)]
pub enum Target {
    Literal(Name),
    Computed(Expr),
}

/// A statement.
#[derive(Drop)]
pub enum Stmt {
    /// `name = value;`
    Assign {
        name: Name,
        value: Expr,
    },
    /// `name = exists dataset;`
    Exists {
        name: Name,
        dataset: Expr,
    },
    /// `name = rows dataset;`
    Rows {
        name: Name,
        dataset: Expr,
    },
    Print(Expr),
    If {
        condition: Expr,
        then: Block,
        otherwise: Option<Block>,
    },
    While {
        condition: Expr,
        body: Block,
    },
    /// `for name in dataset`, over its rows.
    ForRows {
        name: Name,
        dataset: Target,
        body: Block,
    },
    /// `for name = low to high`
    ForRange {
        name: Name,
        low: Expr,
        high: Expr,
        body: Block,
    },
    Emit {
        builder: Name,
        values: Exprs,
    },
    /// `write builder as dataset;`
    Write {
        builder: Name,
        dataset: Name,
    },
    /// `drop dataset;`
    Drop {
        dataset: Name,
    },
}

/// Statements, in order.
pub type Block = ListOf<Stmt>;
