//! The lines of a block's names: datasets, and names that are absent.
ghost use Rattle.std.specs.Prelude.{◌≡◌, ◌++◌, OnOk};
ghost use Rattle.std.specs.List.{flat_map};
ghost use Rattle.outside_io.specs.Causes.{HasWriteCause};
ghost use Rattle.report_text.specs.Passing.{Passes};
ghost use Rattle.report_text.specs.Report.{column_text, value_text, row_text};
ghost use Rattle.report_text.specs.Report.{dataset_line, columns_line};
ghost use Rattle.report_text.specs.Report.{dataset_text, absent_text, slot_text};

use crate::names::type_name;
use crate::passing::write_each;
use crate::pieces::{Shown, push_if, push_listed};
use dataset_types::{Column, Marked, Named, Row, Table};
use outside_io::{Sink, WriteFault};
use std::alloc::Global;
use value_types::{Name, NoMemory, Words, push_id, push_literal};

impl Shown for Column {
    ghost text = { column_text };

    fn push_to(&self, alloc: Global, out: &mut Words) -> Result<(), NoMemory> {
        out.push_text(alloc, self.name.as_text())?;
        out.push_text(alloc, " ")?;
        out.push_text(alloc, type_name(self.kind))
    }
}

impl Shown for Marked {
    ghost text = { value_text };

    fn push_to(&self, alloc: Global, out: &mut Words) -> Result<(), NoMemory> {
        push_if(alloc, out, self.marked, "~")?;
        push_literal(alloc, out, &self.value)
    }
}

impl Shown for Row {
    ghost text = { row_text };

    fn push_to(&self, alloc: Global, out: &mut Words) -> Result<(), NoMemory> {
        out.push_text(alloc, "  ")?;
        push_if(alloc, out, !self.sure, "?")?;
        push_id(alloc, out, &self.id)?;
        out.push_text(alloc, ":")?;
        push_listed(alloc, out, self.values.as_slice())?;
        out.push_text(alloc, "\n")
    }
}

fn push_dataset_line(
    alloc: Global,
    out: &mut Words,
    name: &Name,
    doubt: bool,
    table: &Table,
) -> Result<(), NoMemory>
    ensures { OnOk result (out.new ≡ out.old ++ dataset_line name.now doubt table.now) }
{
    out.push_text(alloc, "dataset ")?;
    push_if(alloc, out, doubt, "?")?;
    out.push_text(alloc, name.as_text())?;
    push_if(alloc, out, table.is_open(), " open")?;
    push_if(alloc, out, table.is_loose(), " loose")?;
    out.push_text(alloc, "\n")
}

fn push_columns(alloc: Global, out: &mut Words, columns: &[Column]) -> Result<(), NoMemory>
    ensures { OnOk result (out.new ≡ out.old ++ columns_line columns.now) }
{
    out.push_text(alloc, "  columns")?;
    push_listed(alloc, out, columns)?;
    out.push_text(alloc, "\n")
}

fn push_absent(
    alloc: Global,
    out: &mut Words,
    blurred: bool,
    name: &Name,
    doubt: bool,
) -> Result<(), NoMemory>
    ensures { OnOk result (out.new ≡ out.old ++ absent_text blurred name.now doubt) }
{
    if !doubt && !blurred {
        return Ok(());
    }
    out.push_text(alloc, "absent ")?;
    push_if(alloc, out, doubt, "?")?;
    out.push_text(alloc, name.as_text())?;
    out.push_text(alloc, "\n")
}

fn write_dataset<K: Sink>(
    alloc: Global,
    sink: &mut K,
    out: &mut Words,
    name: &Name,
    doubt: bool,
    table: &Table,
) -> Result<(), WriteFault>
    ensures text { Passes (K.written sink.old) (K.written sink.new) result out.old out.new
        (dataset_text name.now doubt table.now) }
    ensures cause { HasWriteCause (K.faults sink.old) (K.faults sink.new) result }
{
    push_dataset_line(alloc, out, name, doubt, table)?;
    push_columns(alloc, out, table.columns().as_slice())?;
    write_each(alloc, sink, out, table.rows().as_slice())
}

fn write_slot<K: Sink>(
    alloc: Global,
    sink: &mut K,
    out: &mut Words,
    blurred: bool,
    entry: &Named,
) -> Result<(), WriteFault>
    ensures text { Passes (K.written sink.old) (K.written sink.new) result out.old out.new
        (slot_text blurred entry.now) }
    ensures cause { HasWriteCause (K.faults sink.old) (K.faults sink.new) result }
{
    let slot = &entry.slot;
    match &slot.table {
        Some(table) => write_dataset(alloc, sink, out, &entry.name, slot.doubt, table.get()),
        None => Ok(push_absent(alloc, out, blurred, &entry.name, slot.doubt)?),
    }
}

/// What stands under each name.
pub fn write_slots<K: Sink>(
    alloc: Global,
    sink: &mut K,
    out: &mut Words,
    blurred: bool,
    slots: &[Named],
) -> Result<(), WriteFault>
    ensures text { Passes (K.written sink.old) (K.written sink.new) result out.old out.new
        (flat_map (slot_text blurred) slots.now) }
    ensures cause { HasWriteCause (K.faults sink.old) (K.faults sink.new) result }
{
    for entry in slots {
        write_slot(alloc, sink, out, blurred, entry)?;
    }
    Ok(())
}
