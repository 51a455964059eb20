//! The reasons why a worker makes no further call, and whether it may still append what it owes.
use amo_host::{LogFile, RunLock};
use amo_run_files::Why;

/// Why a worker goes no further.
#[derive(Clone, Copy, Debug, PartialEq, Eq)]
pub enum Halt {
    /// The host's call failed. The host knows why.
    Host,
    /// There was no memory.
    Memory,
    /// There is no line or job of this number.
    NoLine,
    /// The texts that were read of this log can't follow those that were read before.
    Unread(LogFile),
    /// Another process had this lock, however often it was tried.
    Held(RunLock),
    /// The append of this number, from 1, of the worker's journal can't follow those before it.
    Entry(usize),
    /// The line of this number of the list is not what it was when the run first knew it.
    Changed(usize),
    /// The line of this number of the list is refused.
    List(usize, Why),
    /// The answer of this number, from 1, is of no attempt, or of one that an earlier answer is of.
    Misplaced(usize),
    /// The last round is of another boot, or the registers are those of another round.
    OtherRound,
    /// The file of the round has impossible numbers.
    BadRound,
}

/// Which calls a worker may still make.
#[derive(Clone, Copy, Debug, PartialEq, Eq)]
pub enum Health {
    /// Each call that is due.
    Fine,
    /// A call in a round has failed. It may append what it owes.
    Broken,
    /// None.
    Lost,
}
