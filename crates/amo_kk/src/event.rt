//! The events of a history, and those that a step of a worker shows.

/// `Event`: one entry of a history, with its worker and its job. It is also a step of the
/// sequential object, the set of unclaimed jobs, with which a history is compared.
#[derive(Clone, Copy, Debug, PartialEq, Eq)]
pub enum Event {
    /// The worker (first) has claimed the job (second).
    Claimed(u32, u32),
    /// The worker (first) has recorded the job (second) as done.
    Done(u32, u32),
    /// The worker has ended by its own choice.
    Ended(u32),
    /// The worker has crashed.
    Halted(u32),
    /// The worker has left.
    Left(u32),
}

/// `Shown`: the visible result of one step of a worker.
#[derive(Clone, Copy, Debug, PartialEq, Eq)]
pub enum Shown {
    /// A step that no history has: it announced or read.
    Quiet,
    /// The step claimed this job: the caller performs it now.
    Claimed(u32),
    /// The step recorded this job as done, and the worker goes on.
    Done(u32),
    /// The step recorded this job as done, and the worker has ended.
    DoneEnded(u32),
    /// The worker has ended: too few jobs are open to it.
    Ended,
    /// The worker has left.
    Left,
}

/// `Leaving`: the result of a request to leave.
#[derive(Clone, Copy, Debug, PartialEq, Eq)]
pub enum Leaving {
    /// The worker has left.
    Left,
    /// The worker stays, since this job is in its hand.
    InHand(u32),
    /// The worker was gone before, and nothing changes.
    Gone,
}
