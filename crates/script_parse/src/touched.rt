//! The names that statements touch.
ghost use Rattle.std.specs.Prelude.{◌≡◌, OnOk, IfOk};
ghost use Rattle.name_lists.specs.Nub.{all_added};
ghost use Rattle.script_parse.specs.Touched as spec;

use crate::stmt::{Block, Stmt};
use crate::touch::Touch;
use name_lists::add_name;
use std::alloc::Global;
use value_types::{ListOf, Name, Names, NoMemory};

/// The variables that the statements of a block can assign, nested ones too and those of loops, in the
/// text's order, each once.
pub fn assigned(alloc: Global, block: &Block) -> Result<Names, NoMemory>
    ensures { IfOk result (λ names. names ≡ spec.assigned block.now) }
{
    touched(alloc, block, Touch::Variables)
}

/// The builders that the statements of a block can emit to, nested ones too, in the text's order, each once.
pub fn builders_touched(alloc: Global, block: &Block) -> Result<Names, NoMemory>
    ensures { IfOk result (λ names. names ≡ spec.builders_touched block.now) }
{
    touched(alloc, block, Touch::Builders)
}

/// The datasets that the statements of a block can write or drop, nested ones too, in the text's order,
/// each once.
pub fn datasets_touched(alloc: Global, block: &Block) -> Result<Names, NoMemory>
    ensures { IfOk result (λ names. names ≡ spec.datasets_touched block.now) }
{
    touched(alloc, block, Touch::Datasets)
}

#[tactic(auto, using(crate::proofs::Touches::touches))]
fn touched(alloc: Global, block: &Block, touch: Touch) -> Result<Names, NoMemory>
    ensures { IfOk result (λ names. names ≡ spec.touched touch block.now) }
{
    let mut names = ListOf::new(alloc)?;
    add_block(alloc, block.as_slice(), touch, &mut names)?;
    Ok(names)
}

/// A name, where such names are asked for.
#[tactic(auto, using(crate::proofs::Touches::touches))]
fn add(
    alloc: Global,
    touch: Touch,
    of: Touch,
    name: &Name,
    names: &mut Names,
) -> Result<(), NoMemory>
    ensures { OnOk result (names.new ≡ all_added names.old (spec.asked touch of name.now)) }
{
    match (touch, of) {
        (Touch::Variables, Touch::Variables) => add_name(alloc, names, name),
        (Touch::Builders, Touch::Builders) => add_name(alloc, names, name),
        (Touch::Datasets, Touch::Datasets) => add_name(alloc, names, name),
        _ => Ok(()),
    }
}

#[cycle(touched)]
#[tactic(auto, using(crate::proofs::Touches::touches))]
fn add_block(alloc: Global, block: &[Stmt], touch: Touch, names: &mut Names) -> Result<(), NoMemory>
    ensures { OnOk result (names.new ≡ all_added names.old (spec.in_block touch block.now)) }
{
    for stmt in block {
        add_statement(alloc, stmt, touch, names)?;
    }
    Ok(())
}

#[cycle(touched)]
#[tactic(auto, using(crate::proofs::Touches::touches))]
fn add_statement(
    alloc: Global,
    stmt: &Stmt,
    touch: Touch,
    names: &mut Names,
) -> Result<(), NoMemory>
    ensures { OnOk result (names.new ≡ all_added names.old (spec.in_statement touch stmt.now)) }
{
    match stmt {
        Stmt::Assign { name, .. } => add(alloc, touch, Touch::Variables, name, names),
        Stmt::Exists { name, .. } => add(alloc, touch, Touch::Variables, name, names),
        Stmt::Rows { name, .. } => add(alloc, touch, Touch::Variables, name, names),
        Stmt::Print(_) => Ok(()),
        Stmt::If {
            then,
            otherwise,
            ..
        } => {
            add_block(alloc, then.as_slice(), touch, names)?;
            match otherwise {
                None => Ok(()),
                Some(block) => add_block(alloc, block.as_slice(), touch, names),
            }
        }
        Stmt::While { body, .. } => add_block(alloc, body.as_slice(), touch, names),
        Stmt::ForRows { name, body, .. } => {
            add(alloc, touch, Touch::Variables, name, names)?;
            add_block(alloc, body.as_slice(), touch, names)
        }
        Stmt::ForRange { name, body, .. } => {
            add(alloc, touch, Touch::Variables, name, names)?;
            add_block(alloc, body.as_slice(), touch, names)
        }
        Stmt::Emit { builder, .. } => add(alloc, touch, Touch::Builders, builder, names),
        Stmt::Write { dataset, .. } => add(alloc, touch, Touch::Datasets, dataset, names),
        Stmt::Drop { dataset } => add(alloc, touch, Touch::Datasets, dataset, names),
    }
}
