//! The events of a run, as a log has them.

/// An attempt, by its worker and its serial number in that worker's journal, from 1 on.
#[derive(Clone, Copy, Debug, PartialEq, Eq)]
pub struct Attempt {
    pub worker: u64,
    pub serial: u64,
}

/// An attempt that was handed over, with its line.
#[derive(Clone, Copy, Debug, PartialEq, Eq)]
pub struct Handing {
    pub worker: u64,
    pub serial: u64,
    pub line: u64,
}

/// An event of a run.
#[derive(Clone, Copy, Debug, PartialEq, Eq)]
pub enum Event {
    /// A process of the worker begins, and recovers the journal.
    Begins { worker: u64 },
    /// The process of the worker dies.
    Dies { worker: u64 },
    /// An intent of this line is in the worker's journal after all, though nobody knows that its
    /// append came about.
    Lands { worker: u64, line: u64 },
    /// The worker's intent of this line is acknowledged.
    Intends { worker: u64, line: u64 },
    /// The worker reads the openings and then the journal of the other worker, and nothing there
    /// stands against its line.
    Looks { worker: u64, other: u64 },
    /// The worker hands its attempt over.
    HandsOver { worker: u64 },
    /// The line of an attempt is performed.
    Performs(Handing),
    /// The attempt at this place among those that are alive is over. The place counts from 0, and
    /// the attempt that was handed over last has place 0.
    Ends { place: u64 },
    /// The worker or an operator reports that this attempt was not begun or not done.
    Opens(Attempt),
}
