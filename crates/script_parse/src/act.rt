//! What each action of scripts makes of the pieces.
ghost use Rattle.std.specs.Prelude.{◌≡◌, ◌∷◌, OnOk};
ghost use Rattle.expr_parse.specs.Tops.{Goes};
ghost use Rattle.script_parse.specs.Pieces as spec;

use crate::piece::{LoopPart, ScriptPiece};
use crate::pops::{pop_block, pop_builders, pop_definitions, pop_loop};
use crate::script::{Builder, Script};
use crate::stmt::{Block, Stmt, Target};
use dataset_types::Column;
use expr_parse::{Piece, Pieces};
use notebook_grammar::ScriptAction;
use std::alloc::Global;
use value_types::{ListOf, Name, NoMemory};

fn put(pieces: &mut Pieces<ScriptPiece>, piece: ScriptPiece) -> Result<(), NoMemory>
    ensures { OnOk result (spec.put piece pieces.old ≡ Some pieces.new) }
{
    pieces.push(Piece::Other(piece))
}

/// One statement more, the last of the block on top.
fn statement(alloc: Global, pieces: &mut Pieces<ScriptPiece>, stmt: Stmt) -> Result<(), NoMemory>
    requires { Goes (spec.statement stmt pieces.old) }
    ensures { OnOk result (spec.statement stmt pieces.old ≡ Some pieces.new) }
{
    let mut block = pop_block(pieces);
    block.push(alloc, stmt)?;
    put(pieces, ScriptPiece::Block(block))
}

fn end_script(pieces: &mut Pieces<ScriptPiece>) -> Result<(), NoMemory>
    requires { Goes (spec.did ScriptAction.Script pieces.old) }
    ensures { OnOk result (spec.did ScriptAction.Script pieces.old ≡ Some pieces.new) }
{
    let body = pop_block(pieces);
    let builders = pop_builders(pieces);
    put(pieces, ScriptPiece::Script(Script { builders, body }))
}

fn builder(alloc: Global, pieces: &mut Pieces<ScriptPiece>) -> Result<(), NoMemory>
    requires { Goes (spec.did ScriptAction.Builder pieces.old) }
    ensures { OnOk result (spec.did ScriptAction.Builder pieces.old ≡ Some pieces.new) }
{
    let columns = pop_definitions(pieces);
    let name = pieces.pop_name();
    let mut builders = pop_builders(pieces);
    builders.push(alloc, Builder { name, columns })?;
    put(pieces, ScriptPiece::Builders(builders))
}

fn column(alloc: Global, pieces: &mut Pieces<ScriptPiece>) -> Result<(), NoMemory>
    requires { Goes (spec.did ScriptAction.Column pieces.old) }
    ensures { OnOk result (spec.did ScriptAction.Column pieces.old ≡ Some pieces.new) }
{
    let kind = pieces.pop_type();
    let name = pieces.pop_name();
    let mut columns = pop_definitions(pieces);
    columns.push(alloc, Column { name, kind })?;
    put(pieces, ScriptPiece::Definitions(columns))
}

fn print(alloc: Global, pieces: &mut Pieces<ScriptPiece>) -> Result<(), NoMemory>
    requires { Goes (spec.did ScriptAction.Print pieces.old) }
    ensures { OnOk result (spec.did ScriptAction.Print pieces.old ≡ Some pieces.new) }
{
    let value = pieces.pop_tree();
    statement(alloc, pieces, Stmt::Print(value))
}

fn end_while(alloc: Global, pieces: &mut Pieces<ScriptPiece>) -> Result<(), NoMemory>
    requires { Goes (spec.did ScriptAction.While pieces.old) }
    ensures { OnOk result (spec.did ScriptAction.While pieces.old ≡ Some pieces.new) }
{
    let body = pop_block(pieces);
    let condition = pieces.pop_tree();
    statement(alloc, pieces, Stmt::While { condition, body })
}

/// A loop, by what it goes over.
fn loop_over(name: Name, over: LoopPart, body: Block) -> Stmt
    ensures { result ≡ spec.loop_over name over body }
{
    match over {
        LoopPart::Range(low, high) => Stmt::ForRange {
            name,
            low,
            high,
            body,
        },
        LoopPart::Rows(dataset) => Stmt::ForRows {
            name,
            dataset,
            body,
        },
    }
}

fn end_for(alloc: Global, pieces: &mut Pieces<ScriptPiece>) -> Result<(), NoMemory>
    requires { Goes (spec.did ScriptAction.For pieces.old) }
    ensures { OnOk result (spec.did ScriptAction.For pieces.old ≡ Some pieces.new) }
{
    let body = pop_block(pieces);
    let over = pop_loop(pieces);
    let name = pieces.pop_name();
    let stmt = loop_over(name, over, body);
    statement(alloc, pieces, stmt)
}

fn emit(alloc: Global, pieces: &mut Pieces<ScriptPiece>) -> Result<(), NoMemory>
    requires { Goes (spec.did ScriptAction.Emit pieces.old) }
    ensures { OnOk result (spec.did ScriptAction.Emit pieces.old ≡ Some pieces.new) }
{
    let values = pieces.pop_list();
    let builder = pieces.pop_name();
    statement(alloc, pieces, Stmt::Emit { builder, values })
}

fn write(alloc: Global, pieces: &mut Pieces<ScriptPiece>) -> Result<(), NoMemory>
    requires { Goes (spec.did ScriptAction.Write pieces.old) }
    ensures { OnOk result (spec.did ScriptAction.Write pieces.old ≡ Some pieces.new) }
{
    let dataset = pieces.pop_name();
    let builder = pieces.pop_name();
    statement(alloc, pieces, Stmt::Write { builder, dataset })
}

fn drop_dataset(alloc: Global, pieces: &mut Pieces<ScriptPiece>) -> Result<(), NoMemory>
    requires { Goes (spec.did ScriptAction.Drop pieces.old) }
    ensures { OnOk result (spec.did ScriptAction.Drop pieces.old ≡ Some pieces.new) }
{
    let dataset = pieces.pop_name();
    statement(alloc, pieces, Stmt::Drop { dataset })
}

fn exists(alloc: Global, pieces: &mut Pieces<ScriptPiece>) -> Result<(), NoMemory>
    requires { Goes (spec.did ScriptAction.Exists pieces.old) }
    ensures { OnOk result (spec.did ScriptAction.Exists pieces.old ≡ Some pieces.new) }
{
    let dataset = pieces.pop_tree();
    let name = pieces.pop_name();
    statement(alloc, pieces, Stmt::Exists { name, dataset })
}

fn rows(alloc: Global, pieces: &mut Pieces<ScriptPiece>) -> Result<(), NoMemory>
    requires { Goes (spec.did ScriptAction.Rows pieces.old) }
    ensures { OnOk result (spec.did ScriptAction.Rows pieces.old ≡ Some pieces.new) }
{
    let dataset = pieces.pop_tree();
    let name = pieces.pop_name();
    statement(alloc, pieces, Stmt::Rows { name, dataset })
}

fn assign(alloc: Global, pieces: &mut Pieces<ScriptPiece>) -> Result<(), NoMemory>
    requires { Goes (spec.did ScriptAction.Assign pieces.old) }
    ensures { OnOk result (spec.did ScriptAction.Assign pieces.old ≡ Some pieces.new) }
{
    let value = pieces.pop_tree();
    let name = pieces.pop_name();
    statement(alloc, pieces, Stmt::Assign { name, value })
}

fn if_else(alloc: Global, pieces: &mut Pieces<ScriptPiece>) -> Result<(), NoMemory>
    requires { Goes (spec.did ScriptAction.IfElse pieces.old) }
    ensures { OnOk result (spec.did ScriptAction.IfElse pieces.old ≡ Some pieces.new) }
{
    let otherwise = Some(pop_block(pieces));
    let then = pop_block(pieces);
    let condition = pieces.pop_tree();
    statement(
        alloc,
        pieces,
        Stmt::If {
            condition,
            then,
            otherwise,
        },
    )
}

fn if_alone(alloc: Global, pieces: &mut Pieces<ScriptPiece>) -> Result<(), NoMemory>
    requires { Goes (spec.did ScriptAction.If pieces.old) }
    ensures { OnOk result (spec.did ScriptAction.If pieces.old ≡ Some pieces.new) }
{
    let then = pop_block(pieces);
    let condition = pieces.pop_tree();
    statement(
        alloc,
        pieces,
        Stmt::If {
            condition,
            then,
            otherwise: None,
        },
    )
}

fn range(pieces: &mut Pieces<ScriptPiece>) -> Result<(), NoMemory>
    requires { Goes (spec.did ScriptAction.Range pieces.old) }
    ensures { OnOk result (spec.did ScriptAction.Range pieces.old ≡ Some pieces.new) }
{
    let high = pieces.pop_tree();
    let low = pieces.pop_tree();
    put(pieces, ScriptPiece::Loop(LoopPart::Range(low, high)))
}

fn named(pieces: &mut Pieces<ScriptPiece>) -> Result<(), NoMemory>
    requires { Goes (spec.did ScriptAction.Named pieces.old) }
    ensures { OnOk result (spec.did ScriptAction.Named pieces.old ≡ Some pieces.new) }
{
    let dataset = Target::Literal(pieces.pop_name());
    put(pieces, ScriptPiece::Loop(LoopPart::Rows(dataset)))
}

fn computed(pieces: &mut Pieces<ScriptPiece>) -> Result<(), NoMemory>
    requires { Goes (spec.did ScriptAction.Computed pieces.old) }
    ensures { OnOk result (spec.did ScriptAction.Computed pieces.old ≡ Some pieces.new) }
{
    let dataset = Target::Computed(pieces.pop_tree());
    put(pieces, ScriptPiece::Loop(LoopPart::Rows(dataset)))
}

/// Does one action to the pieces.
pub fn act_on_script(
    alloc: Global,
    pieces: &mut Pieces<ScriptPiece>,
    action: ScriptAction,
) -> Result<(), NoMemory>
    requires { Goes (spec.did action pieces.old) }
    ensures { OnOk result (spec.did action pieces.old ≡ Some pieces.new) }
{
    match action {
        ScriptAction::BeginBuilders => put(pieces, ScriptPiece::Builders(ListOf::new(alloc)?)),
        ScriptAction::BeginBlock => put(pieces, ScriptPiece::Block(ListOf::new(alloc)?)),
        ScriptAction::Script => end_script(pieces),
        ScriptAction::BeginColumns => put(pieces, ScriptPiece::Definitions(ListOf::new(alloc)?)),
        ScriptAction::Builder => builder(alloc, pieces),
        ScriptAction::Column => column(alloc, pieces),
        ScriptAction::Print => print(alloc, pieces),
        ScriptAction::While => end_while(alloc, pieces),
        ScriptAction::For => end_for(alloc, pieces),
        ScriptAction::Emit => emit(alloc, pieces),
        ScriptAction::Write => write(alloc, pieces),
        ScriptAction::Drop => drop_dataset(alloc, pieces),
        ScriptAction::Exists => exists(alloc, pieces),
        ScriptAction::Rows => rows(alloc, pieces),
        ScriptAction::Assign => assign(alloc, pieces),
        ScriptAction::IfElse => if_else(alloc, pieces),
        ScriptAction::If => if_alone(alloc, pieces),
        ScriptAction::Range => range(pieces),
        ScriptAction::Named => named(pieces),
        ScriptAction::Computed => computed(pieces),
    }
}
