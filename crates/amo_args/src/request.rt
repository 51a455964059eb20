//! The requests of a command line.

use amo_report::Wanted;

/// The request of a command, on the plan that is read.
#[derive(Clone, Copy, Debug, PartialEq, Eq)]
pub enum Request {
    /// Write this text of the plan.
    Write(Wanted),
    /// Execute its jobs in threads, and write what became of them.
    Run,
}
