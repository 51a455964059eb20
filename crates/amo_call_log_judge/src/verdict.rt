//! The faults of a text that is not a log.

/// The fault of a line.
#[derive(Clone, Copy, Debug, PartialEq, Eq)]
pub enum Wrong {
    /// Its words are those of no event.
    NoEvent,
    /// A word that should be a number isn't one, or the number has more than 64 bits.
    NoNumber,
    /// It names a worker with a higher number than a run has.
    WorkerBeyond,
    /// It has no line feed at its end.
    NoLineFeed,
}

/// The line of this number, from 1, is refused, for this.
#[derive(Clone, Copy, Debug, PartialEq, Eq)]
pub struct Refusal {
    pub line: usize,
    pub wrong: Wrong,
}
