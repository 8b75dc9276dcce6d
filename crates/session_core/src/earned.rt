//! What a line earns, and the writing of it.
ghost use Rattle.std.specs.Prelude.{◌≡◌, OnOk, IfErr};
ghost use Rattle.session_core.specs.Earned.{IsWhole, WritesLine, status_of};
ghost use Rattle.report_words.specs.Says.{Blames};

use cell_model::{EditRefusal, Settled};
use outside_io::{Sink, WriteFault};
use report_text::{write_block, write_refusal, write_starved};
use report_words::SessionStatus;
use std::alloc::Global;
use value_types::Name;

/// What a line earns.
#[derive(Drop)]
pub enum Earned {
    Nothing,
    Refusal(EditRefusal),
    /// The block of a version.
    Block {
        version: u32,
        branch: Name,
        settled: Settled,
    },
    /// A starved block in its place, of the cell with this id at a position.
    Starved {
        version: u32,
        branch: Name,
        position: u32,
        cell: u32,
    },
}

/// The status with which a failed write ends a session.
fn status_of(fault: WriteFault) -> SessionStatus
    ensures { result ≡ status_of fault }
{
    match fault {
        WriteFault::Failed => SessionStatus::WriteFault,
        WriteFault::NoMemory => SessionStatus::NoMemory,
    }
}

/// Writes what a line earns. Once a starved block is begun the status is that of want of memory, whatever follows.
pub fn write_earned<K: Sink>(
    alloc: Global,
    sink: &mut K,
    line: u32,
    earned: &Earned,
) -> Result<(), SessionStatus>
    requires { IsWhole earned.now }
    ensures text { WritesLine result line earned.now (K.written sink.old) (K.written sink.new) }
    ensures cause { OnOk result (K.faults sink.new ≡ K.faults sink.old) }
    ensures failed { IfErr result (λ status.
        Blames status 0 0 (K.faults sink.old) (K.faults sink.new)) }
{
    match earned {
        Earned::Nothing => Ok(()),
        Earned::Refusal(refusal) => match write_refusal(alloc, sink, line, *refusal) {
            Ok(()) => Ok(()),
            Err(fault) => Err(status_of(fault)),
        },
        Earned::Block {
            version,
            branch,
            settled,
        } => {
            match write_block(alloc, sink, *version, branch, settled) {
                Ok(()) => Ok(()),
                Err(fault) => Err(status_of(fault)),
            }
        }
        Earned::Starved {
            version,
            branch,
            position,
            cell,
        } => {
            match write_starved(alloc, sink, *version, branch, *position, *cell) {
                Ok(()) => Err(SessionStatus::NoMemory),
                Err(_) => Err(SessionStatus::NoMemory),
            }
        }
    }
}
