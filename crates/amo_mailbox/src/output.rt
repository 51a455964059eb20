//! The outputs that go through the queue.

/// `Output`: the answer of a job, with the worker that performed it.
#[derive(Drop)]
pub struct Output<Out> {
    /// The worker, from 1.
    pub worker: u32,
    /// The job, from 1.
    pub job: u32,
    /// The answer, as the work gave it.
    pub out: Out,
}
