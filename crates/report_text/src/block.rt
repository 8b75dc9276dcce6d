//! The calls that write a block, a refused line and a starved block.
ghost use Rattle.std.specs.Prelude.{◌≡◌, ◌++◌, length, OnOk};
ghost use Rattle.outside_io.specs.Causes.{HasWriteCause};
ghost use Rattle.outside_io.specs.Texts.{WritesText};
ghost use Rattle.report_text.specs.Passing.{Passes};
ghost use Rattle.report_text.specs.Report.{head_line, body_text, tail_text, end_line, block_text};
ghost use Rattle.report_text.specs.Report.{starved_line, starved_text, refusal_text};

use crate::cells::{push_cell_at, write_cells};
use crate::dataset::write_slots;
use crate::names::refusal_name;
use crate::pieces::{push_if, push_number};
use cell_model::{EditRefusal, Settled};
use outside_io::{Sink, WriteFault, write_all};
use std::alloc::Global;
use value_types::{Name, NoMemory, Words};

fn push_head(alloc: Global, out: &mut Words, version: u32, branch: &Name) -> Result<(), NoMemory>
    ensures { OnOk result (out.new ≡ out.old ++ head_line version branch.now) }
{
    out.push_text(alloc, "version ")?;
    push_number(alloc, out, u64::from(version))?;
    out.push_text(alloc, " ")?;
    out.push_text(alloc, branch.as_text())?;
    out.push_text(alloc, "\n")
}

fn push_end(alloc: Global, out: &mut Words, version: u32) -> Result<(), NoMemory>
    ensures { OnOk result (out.new ≡ out.old ++ end_line version) }
{
    out.push_text(alloc, "end ")?;
    push_number(alloc, out, u64::from(version))?;
    out.push_text(alloc, "\n")
}

/// Writes the block of a version whose cells have these results.
///
/// - Error: `Failed` where the sink failed; on any error some first bytes of the block are written.
/// - Source: docs/FORMATS.md, "Report".
pub fn write_block<K: Sink>(
    alloc: Global,
    sink: &mut K,
    version: u32,
    branch: &Name,
    settled: &Settled,
) -> Result<(), WriteFault>
    requires { length settled.now.results ≡ length settled.now.cells }
    ensures text { WritesText (K.written sink.old) (K.written sink.new) result
        (block_text version branch.now settled.now.cells settled.now.results settled.now.env) }
    ensures cause { HasWriteCause (K.faults sink.old) (K.faults sink.new) result }
{
    let mut out = Words::new(alloc)?;
    push_head(alloc, &mut out, version, branch)?;
    write_body(alloc, sink, &mut out, settled)?;
    push_tail(alloc, &mut out, settled.env.is_blurred(), version)?;
    write_all(sink, alloc, out.as_bytes())
}

fn push_tail(alloc: Global, out: &mut Words, blurred: bool, version: u32) -> Result<(), NoMemory>
    ensures { OnOk result (out.new ≡ out.old ++ tail_text blurred version) }
{
    push_if(alloc, out, blurred, "absent ?*\n")?;
    push_end(alloc, out, version)
}

/// The cells with their results, and the names of the environment after them.
fn write_body<K: Sink>(
    alloc: Global,
    sink: &mut K,
    out: &mut Words,
    settled: &Settled,
) -> Result<(), WriteFault>
    ensures text { Passes (K.written sink.old) (K.written sink.new) result out.old out.new
        (body_text settled.now.cells settled.now.results settled.now.env) }
    ensures cause { HasWriteCause (K.faults sink.old) (K.faults sink.new) result }
{
    write_cells(
        alloc,
        sink,
        out,
        settled.cells.as_slice(),
        settled.results.as_slice(),
    )?;
    let env = &settled.env;
    write_slots(alloc, sink, out, env.is_blurred(), env.slots().as_slice())
}

/// Writes the line of a refused edit.
///
/// - Unit: `line` counts the stream's lines from 1.
/// - Source: docs/FORMATS.md, "Report".
pub fn write_refusal<K: Sink>(
    alloc: Global,
    sink: &mut K,
    line: u32,
    refusal: EditRefusal,
) -> Result<(), WriteFault>
    ensures text { WritesText (K.written sink.old) (K.written sink.new) result
        (refusal_text line refusal) }
    ensures cause { HasWriteCause (K.faults sink.old) (K.faults sink.new) result }
{
    let mut out = Words::new(alloc)?;
    push_refusal(alloc, &mut out, line, refusal)?;
    write_all(sink, alloc, out.as_bytes())
}

fn push_refusal(
    alloc: Global,
    out: &mut Words,
    line: u32,
    refusal: EditRefusal,
) -> Result<(), NoMemory>
    ensures { OnOk result (out.new ≡ out.old ++ refusal_text line refusal) }
{
    out.push_text(alloc, "line ")?;
    push_number(alloc, out, u64::from(line))?;
    out.push_text(alloc, " refused ")?;
    out.push_text(alloc, refusal_name(refusal))?;
    out.push_text(alloc, "\n")
}

/// Writes the block of a version whose run found no memory at a cell.
///
/// - Unit: `position` counts the version's cells from 1, and `cell` is the cell's id.
/// - Source: docs/FORMATS.md, "Report".
pub fn write_starved<K: Sink>(
    alloc: Global,
    sink: &mut K,
    version: u32,
    branch: &Name,
    position: u32,
    cell: u32,
) -> Result<(), WriteFault>
    ensures text { WritesText (K.written sink.old) (K.written sink.new) result
        (starved_text version branch.now position cell) }
    ensures cause { HasWriteCause (K.faults sink.old) (K.faults sink.new) result }
{
    let mut out = Words::new(alloc)?;
    push_starved(alloc, &mut out, version, branch, position, cell)?;
    write_all(sink, alloc, out.as_bytes())
}

fn push_starved(
    alloc: Global,
    out: &mut Words,
    version: u32,
    branch: &Name,
    position: u32,
    cell: u32,
) -> Result<(), NoMemory>
    ensures { OnOk result (out.new ≡ out.old ++ starved_text version branch.now position cell) }
{
    push_head(alloc, out, version, branch)?;
    push_starved_line(alloc, out, position, cell)?;
    push_end(alloc, out, version)
}

fn push_starved_line(
    alloc: Global,
    out: &mut Words,
    position: u32,
    cell: u32,
) -> Result<(), NoMemory>
    ensures { OnOk result (out.new ≡ out.old ++ starved_line position cell) }
{
    out.push_text(alloc, "starved ")?;
    push_cell_at(alloc, out, u64::from(position), cell)?;
    out.push_text(alloc, "\n")
}
