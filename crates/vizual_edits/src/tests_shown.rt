//! What commands write, as one line for each test to compare: `?` before a doubtful name and an unsure row, `~` before a marked value,
//! and the flags last. A test runs its commands one after another on an environment.
//!
//! What other test modules call has no contract: tests look at what they get.
use crate::apply;
use cell_model::{EnvReads, WorkFault, Writes};
use dataset_types::{Env, Named, Picks, Row, Table};
use sheet_commands::Command;
use std::alloc::Global;
use value_types::{NoMemory, Words, id_text, literal_text};

fn push_row(alloc: Global, out: &mut Words, row: &Row) -> Result<(), NoMemory> {
    out.push_text(alloc, if row.sure { "| " } else { "| ?" })?;
    id_text(alloc, &row.id, out)?;
    for marked in row.values.as_slice() {
        out.push_text(alloc, if marked.marked { " ~" } else { " " })?;
        literal_text(alloc, &marked.value, out)?;
    }
    out.push_text(alloc, " ")
}

fn push_table(alloc: Global, out: &mut Words, table: &Table) -> Result<(), NoMemory> {
    for column in table.columns().as_slice() {
        out.push_text(alloc, column.name.as_text())?;
        out.push_text(alloc, " ")?;
    }
    for row in table.rows().as_slice() {
        push_row(alloc, out, row)?;
    }
    out.push_text(alloc, if table.is_open() { "| open " } else { "" })?;
    out.push_text(alloc, if table.is_loose() { "loose " } else { "" })
}

fn push_write(alloc: Global, out: &mut Words, one: &Named) -> Result<(), NoMemory> {
    out.push_text(alloc, if one.slot.doubt { "?" } else { "" })?;
    out.push_text(alloc, one.name.as_text())?;
    out.push_text(alloc, ": ")?;
    match &one.slot.table {
        None => out.push_text(alloc, "none"),
        Some(table) => push_table(alloc, out, table.get()),
    }
}

fn ran(alloc: Global, env: &Env, command: &Command) -> Result<Writes, WorkFault> {
    let mut reads = EnvReads::new(alloc, env)?;
    apply(alloc, command, 1, &Picks::new(alloc)?, &mut reads)
}

fn line_of(alloc: Global, writes: &Writes) -> Result<Words, NoMemory> {
    let mut out = Words::new(alloc)?;
    for one in writes.as_slice() {
        push_write(alloc, &mut out, one)?;
    }
    Ok(out)
}

// Runs a command on an environment, which then has what it writes.
fn writes(
    alloc: Global,
    env: &mut Env,
    command: Result<Command, NoMemory>,
    want: &str,
) -> Result<bool, WorkFault> {
    let writes = ran(alloc, env, &command?)?;
    env.set_all(alloc, writes.as_slice())?;
    Ok(line_of(alloc, &writes)?.as_text() == want)
}

pub(crate) fn does(
    alloc: Global,
    env: &mut Env,
    command: Result<Command, NoMemory>,
    want: &str,
) -> bool {
    match writes(alloc, env, command, want) {
        Ok(is_so) => is_so,
        Err(_) => false,
    }
}
