//! The work that is done with a payload.
ghost use Rattle.std.specs.Prelude.{ℕ};

/// `Work`: the jobs' effect, over payloads of type `P`. `perform` is called at most once for a
/// payload, since it takes the payload away.
pub trait Work<P> {
    /// The type of an answer.
    type Out;

    /// The relation between a worker, a job, the job's payload and the answer. Each implementation
    /// states its own, and the answers of a run are promised exactly this.
    ghost related: { Self → ℕ → ℕ → P → Self.Out → Type 0 };

    /// Performs a job for a worker, and returns the answer. It must handle any numbers of workers
    /// and jobs. It can't refuse: a work that may fail states the failure in its answer.
    fn perform(&self, worker: u32, job: u32, payload: P) -> Self::Out
        ensures related { related self.now worker job payload result };
}
