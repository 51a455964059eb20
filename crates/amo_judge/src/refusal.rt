//! The faults of a text that isn't a history.

use amo_params::GivensFault;

/// The fault of a line.
#[derive(Clone, Copy, Debug, PartialEq, Eq)]
pub(crate) enum Wrong {
    /// The line isn't the first line of a history.
    NoFirstLine,
    /// The numbers of the line are outside their limits.
    NoGivens(GivensFault),
    /// The numbers have this bound, and the line says another one.
    OtherBound(u32),
    /// The line has no event.
    NoEvent,
    /// The number of the event isn't this one, which is due.
    NotDue(usize),
    /// The line names a worker beyond so many.
    WorkerBeyond(u32),
    /// The line names a job beyond so many.
    JobBeyond(u32),
}

/// The line with this number, from 1, and its fault.
#[derive(Clone, Copy, Debug, PartialEq, Eq)]
pub(crate) struct Refusal {
    pub(crate) line: usize,
    pub(crate) wrong: Wrong,
}
