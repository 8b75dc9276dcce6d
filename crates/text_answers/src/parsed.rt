//! The calls that read a text, with the errors of cells.
ghost use Rattle.std.specs.Prelude.{◌≡◌};
ghost use Rattle.cell_errors.specs.Answers.{Gives};
ghost use Rattle.text_answers.specs.Answers as answer;
ghost use Rattle.text_answers.specs.Faults as spec;

use cell_errors::{CellError, EvalFault};
use expr_lang::Expr;
use expr_parse::{ParseFault, parse_expr};
use sql_parse::{Select, parse_select};
use std::alloc::Global;
use value_types::Words;

/// The number of bytes from which on a text is too long: its places are numbers of 32 bits.
const TOO_LONG: usize = 4_294_967_296;

/// The same fault, as calls that can leave a cell in error answer it.
fn fault_of(fault: ParseFault) -> EvalFault
    ensures { result ≡ spec.fault_of fault }
{
    match fault {
        ParseFault::Syntax { at } => EvalFault::Error(CellError::Syntax { at }),
        ParseFault::NoMemory => EvalFault::NoMemory,
    }
}

/// The expression that a text is.
///
/// `Syntax` exactly where the text isn't an expression: `at` is the byte place of the first token that
/// no expression goes on with, or that is one too many, or the text's length where it ends too early.
/// A text of 4 GiB or more is not read, and answered by want of memory.
pub fn parsed_expr(alloc: Global, text: &Words) -> Result<Expr, EvalFault>
    ensures { Gives result (answer.expr_of text.now) }
{
    if text.len() >= TOO_LONG {
        return Err(EvalFault::NoMemory);
    }
    match parse_expr(alloc, text.as_text()) {
        Ok(expr) => Ok(expr),
        Err(fault) => Err(fault_of(fault)),
    }
}

/// The SELECT that a text is; `Syntax` and want of memory as of `parsed_expr`.
pub fn parsed_select(alloc: Global, text: &Words) -> Result<Select, EvalFault>
    ensures { Gives result (answer.select_of text.now) }
{
    if text.len() >= TOO_LONG {
        return Err(EvalFault::NoMemory);
    }
    match parse_select(alloc, text.as_text()) {
        Ok(select) => Ok(select),
        Err(fault) => Err(fault_of(fault)),
    }
}
