//! The reasons why an event may not follow, and the verdicts of the judge.

/// Why an event may not follow the events before it.
#[derive(Clone, Copy, Debug, PartialEq, Eq)]
pub enum Reason {
    /// A process has the journal of the worker.
    HasProcess,
    /// No process has the journal of the worker.
    NoProcess,
    /// The worker has not handed over its last intent.
    HasIntent,
    /// The worker has no acknowledged intent.
    NoIntent,
    /// The line is not clear: the attempt of this serial number in the journal is at this line, and
    /// is not opened.
    Taken { serial: u64, line: u64 },
    /// The worker has not looked at the journal of this worker since its intent.
    NotSeen { other: u64 },
    /// The attempt is not alive.
    NotAlive,
    /// The attempt has performed its line before.
    PerformedBefore,
    /// The journal of the worker has no such intent.
    NotKept,
    /// The process of the worker may still hand the attempt over.
    Held,
    /// The attempt is alive.
    Alive,
    /// The attempt has performed its line.
    Performed,
}

/// The verdict of the judge on some events.
#[derive(Clone, Copy, Debug, PartialEq, Eq)]
pub enum Verdict {
    /// They are a run, in which this many lines were performed.
    Run { performed: usize },
    /// The event at this index, from 0, is the first that may not follow, for this reason.
    NoRun { index: usize, reason: Reason },
}
