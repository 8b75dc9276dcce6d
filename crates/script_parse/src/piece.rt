//! What a script is built from, beside the pieces of expressions.
use crate::script::{Builders, Script};
use crate::stmt::{Block, Target};
use dataset_types::Columns;
use expr_lang::Expr;

/// What a loop goes over.
#[derive(Drop)]
pub enum LoopPart {
    /// Whole numbers, from the first to the second.
    Range(Expr, Expr),
    /// The rows of a dataset.
    Rows(Target),
}

/// A part of a script that was read and is not yet in a larger one.
#[derive(Drop)]
pub enum ScriptPiece {
    Builders(Builders),
    /// The columns of a builder.
    Definitions(Columns),
    Block(Block),
    Loop(LoopPart),
    Script(Script),
}
