//! The results of the calls on a world.

/// `Turned`: the result of a turn.
#[derive(Clone, Copy, Debug, PartialEq, Eq)]
pub enum Turned {
    /// The worker took a step that the history doesn't have: it announced or read.
    Moved,
    /// The worker has claimed the job.
    Claimed(u32),
    /// The worker has recorded the job as done, and goes on.
    Done(u32),
    /// The worker has recorded the job as done, and has ended.
    DoneEnded(u32),
    /// The worker has ended.
    Ended,
    /// The worker was gone before, and nothing changes.
    Idle,
}

/// `Alone`: the end of a run of one worker alone.
#[derive(Clone, Copy, Debug, PartialEq, Eq)]
pub enum Alone {
    /// The worker has claimed the job, which is now in its hand.
    Claimed(u32),
    /// It has ended.
    Ended,
}

/// `Verdict`: the judge's verdict on a list of events.
#[derive(Clone, Copy, Debug, PartialEq, Eq)]
pub enum Verdict {
    /// The list is a run: each event is a step from the state that the events before it leave.
    Lawful,
    /// The event at this place, counted from 1, is the first that is no such step.
    FirstBad(u32),
}
