//! The values of which calls speak.
use amo_run_files::Extent;

/// A file that a process reads on while others append to it.
#[derive(Clone, Copy, Debug, PartialEq, Eq)]
pub enum LogFile {
    /// The answers of operators.
    Answers,
    /// The journal of the worker of this number.
    Journal(u64),
}

/// A file of the run whose lock processes take.
#[derive(Clone, Copy, Debug, PartialEq, Eq)]
pub enum RunLock {
    /// The guard of a worker's number: the lock on its journal.
    Guard(u64),
    /// The lock of the round: shared by all workers in it, exclusive for the worker that begins the
    /// next.
    Round,
}

/// How a lock is held.
#[derive(Clone, Copy, Debug, PartialEq, Eq)]
pub enum Hold {
    /// Others may share it.
    Shared,
    /// Nobody else has it.
    Exclusive,
}

/// The registers of a round, as they are opened.
#[derive(Debug, PartialEq, Eq, Drop)]
pub struct Registers {
    /// How many bytes their file has.
    pub len: u64,
    /// The first bytes of the file.
    pub front: Vec<u8>,
}

/// A part of the answers or of a journal, as it was read.
#[derive(Debug, PartialEq, Eq, Drop)]
pub struct LogPart {
    /// The texts of the appends that were not read before.
    pub texts: Vec<Vec<u8>>,
    /// How many of all appends stay on the disk, whatever a crash takes: all but the last.
    pub counted: Extent,
}
