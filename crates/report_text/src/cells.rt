//! The lines of a block's cells.
ghost use Rattle.std.specs.Prelude.{◌≡◌, ◌++◌, OnOk};
ghost use Rattle.outside_io.specs.Causes.{HasWriteCause};
ghost use Rattle.report_text.specs.Passing.{Passes};
ghost use Rattle.report_text.specs.Report.{output_text, cell_at, cell_line, cell_text, cells_text};

use crate::names::push_status;
use crate::passing::write_each;
use crate::pieces::{Shown, push_if, push_number};
use cell_model::{Cell, CellResult, Line};
use outside_io::{Sink, WriteFault};
use std::alloc::Global;
use value_types::{ArcOf, NoMemory, Words};

impl Shown for Line {
    ghost text = { output_text };

    fn push_to(&self, alloc: Global, out: &mut Words) -> Result<(), NoMemory> {
        out.push_text(alloc, "  |")?;
        push_if(alloc, out, self.marked, "~")?;
        out.push_text(alloc, " ")?;
        out.push_text(alloc, self.text.as_text())?;
        out.push_text(alloc, "\n")
    }
}

pub fn push_cell_at(alloc: Global, out: &mut Words, position: u64, id: u32) -> Result<(), NoMemory>
    ensures { OnOk result (out.new ≡ out.old ++ cell_at position id) }
{
    out.push_text(alloc, "cell ")?;
    push_number(alloc, out, position)?;
    out.push_text(alloc, " #")?;
    push_number(alloc, out, u64::from(id))
}

fn push_cell_line(
    alloc: Global,
    out: &mut Words,
    position: u64,
    cell: &Cell,
    outcome: &CellResult,
) -> Result<(), NoMemory>
    ensures { OnOk result (out.new ≡ out.old ++ cell_line position cell.now outcome.now) }
{
    push_cell_at(alloc, out, position, cell.id)?;
    out.push_text(alloc, " ")?;
    push_status(alloc, out, outcome.status)?;
    out.push_text(alloc, "\n")
}

fn write_cell<K: Sink>(
    alloc: Global,
    sink: &mut K,
    out: &mut Words,
    position: u64,
    cell: &Cell,
    outcome: &CellResult,
) -> Result<(), WriteFault>
    ensures text { Passes (K.written sink.old) (K.written sink.new) result out.old out.new
        (cell_text position cell.now outcome.now) }
    ensures cause { HasWriteCause (K.faults sink.old) (K.faults sink.new) result }
{
    push_cell_line(alloc, out, position, cell, outcome)?;
    write_each(alloc, sink, out, outcome.lines.as_slice())
}

/// The cells with their results, numbered from 1.
pub fn write_cells<K: Sink>(
    alloc: Global,
    sink: &mut K,
    out: &mut Words,
    cells: &[ArcOf<Cell>],
    outcomes: &[ArcOf<CellResult>],
) -> Result<(), WriteFault>
    ensures text { Passes (K.written sink.old) (K.written sink.new) result out.old out.new
        (cells_text 1 cells.now outcomes.now) }
    ensures cause { HasWriteCause (K.faults sink.old) (K.faults sink.new) result }
{
    let mut position: u64 = 1;
    let mut rest = outcomes;
    for cell in cells {
        let Some((outcome, more)) = rest.split_first() else {
            return Ok(());
        };
        write_cell(alloc, sink, out, position, cell.get(), outcome.get())?;
        rest = more;
        position += 1;
    }
    Ok(())
}
