//! Pieces of a script, taken from the top.
ghost use Rattle.std.specs.Prelude.{◌≡◌, ◌∷◌};
ghost use Rattle.script_parse.specs.Tops as spec;

use crate::piece::{LoopPart, ScriptPiece};
use crate::script::{Builders, Script};
use crate::stmt::Block;
use dataset_types::Columns;
use expr_parse::{Piece, Pieces};

/// The builders, on top.
pub fn pop_builders(pieces: &mut Pieces<ScriptPiece>) -> Builders
    requires { spec.BuildersOn pieces.old }
    ensures { pieces.old ≡ Piece.Other (ScriptPiece.Builders result) ∷ pieces.new }
{
    match pieces.pop_other() {
        ScriptPiece::Builders(builders) => builders,
        _other => unreachable!(),
    }
}

/// The columns of a builder, on top.
pub fn pop_definitions(pieces: &mut Pieces<ScriptPiece>) -> Columns
    requires { spec.DefinitionsOn pieces.old }
    ensures { pieces.old ≡ Piece.Other (ScriptPiece.Definitions result) ∷ pieces.new }
{
    match pieces.pop_other() {
        ScriptPiece::Definitions(definitions) => definitions,
        _other => unreachable!(),
    }
}

/// The block, on top.
pub fn pop_block(pieces: &mut Pieces<ScriptPiece>) -> Block
    requires { spec.BlockOn pieces.old }
    ensures { pieces.old ≡ Piece.Other (ScriptPiece.Block result) ∷ pieces.new }
{
    match pieces.pop_other() {
        ScriptPiece::Block(block) => block,
        _other => unreachable!(),
    }
}

/// What a loop goes over, on top.
pub fn pop_loop(pieces: &mut Pieces<ScriptPiece>) -> LoopPart
    requires { spec.LoopOn pieces.old }
    ensures { pieces.old ≡ Piece.Other (ScriptPiece.Loop result) ∷ pieces.new }
{
    match pieces.pop_other() {
        ScriptPiece::Loop(over) => over,
        _other => unreachable!(),
    }
}

/// The script, on top.
pub fn pop_script(pieces: &mut Pieces<ScriptPiece>) -> Script
    requires { spec.ScriptOn pieces.old }
    ensures { pieces.old ≡ Piece.Other (ScriptPiece.Script result) ∷ pieces.new }
{
    match pieces.pop_other() {
        ScriptPiece::Script(script) => script,
        _other => unreachable!(),
    }
}
