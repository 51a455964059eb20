//! Reports a fault, in one line, and returns its exit status.
ghost use Rattle.std.specs.Prelude.{◌≡◌, ◌≤◌, false};
ghost use Rattle.amo_cli.specs.Endings.{Says, IsTold, change};

use crate::fault::Fault;
use amo_io::{Sink, write_all};
use amo_render::fault_text;
use std::alloc::{AllocError, Global};

/// Gives a line to the sink. If that fails, nothing else changes.
fn say<E: Sink>(err: &mut E, line: &str)
    ensures says { Says (change (E.contents err.old) (E.contents err.new) (E.failed err.new)) line.now }
    ensures heard { E.failed err.new ≡ false → E.waiting err.new ≡ false }
{
    let _ = write_all(err, line.as_bytes());
}

/// Writes the line of the fault, and returns the status. If there is no memory for the line, it
/// reports out of memory instead.
#[tactic(auto, using(crate::proofs::Endings::told))]
pub fn refuse<E: Sink>(alloc: Global, err: &mut E, fault: Fault) -> u8
    ensures told { IsTold fault (change (E.contents err.old) (E.contents err.new) (E.failed err.new)) result }
    ensures status { 1 ≤ result }
    ensures heard { E.failed err.new ≡ false → E.waiting err.new ≡ false }
{
    match fault {
        Fault::Plan(fault) => match fault_text(alloc, &fault) {
            Ok(text) => {
                say(err, text.as_str());
                1
            }
            Err(AllocError) => {
                say(err, "fault memory\n");
                3
            }
        },
        Fault::NoCommand => {
            say(err, "fault words\n");
            2
        }
        Fault::NoMemory => {
            say(err, "fault memory\n");
            3
        }
        Fault::Thread => {
            say(err, "fault thread\n");
            3
        }
        Fault::Read => {
            say(err, "fault read\n");
            4
        }
        Fault::Write => {
            say(err, "fault write\n");
            4
        }
    }
}
