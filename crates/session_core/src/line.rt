//! What a line says.
ghost use Rattle.std.specs.Prelude.{◌≡◌, IfOk};
ghost use Rattle.edit_wire.specs.Wire.{edit_of};
ghost use Rattle.report_words.specs.Reports.{said, said_by};

use cell_model::EditRefusal;
use edit_wire::{EditFault, edit_of};
use line_reader::is_blank;
use report_words::Said;
use std::alloc::Global;
use value_types::NoMemory;

/// The bytes of a line without its line feed, at most.
const LINE_LIMIT: usize = 65_536;

fn said_by(alloc: Global, line: &[u8]) -> Result<Said, NoMemory>
    ensures { IfOk result (λ s. s ≡ said_by (edit_of line.now)) }
{
    match edit_of(alloc, line) {
        Ok(edit) => Ok(Said::Edits(edit)),
        Err(EditFault::Refused(refusal)) => Ok(Said::Refuses(refusal)),
        Err(EditFault::NoMemory) => Err(NoMemory),
    }
}

/// What a line says.
#[tactic(auto, unfolding(report_words::specs::Reports::said))]
pub fn read_line(alloc: Global, line: &[u8]) -> Result<Said, NoMemory>
    ensures { IfOk result (λ s. s ≡ said line.now) }
{
    if line.len() > LINE_LIMIT {
        return Ok(Said::Refuses(EditRefusal::LineTooLong));
    }
    if is_blank(line) {
        return Ok(Said::Nothing);
    }
    said_by(alloc, line)
}
