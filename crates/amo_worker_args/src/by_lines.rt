//! The request of the command `lines`.

/// A worker by lines: of which round, and which of its workers.
#[derive(Clone, Copy)]
pub struct ByLines {
    /// How many jobs the round has, up to 4096.
    pub jobs: u64,
    /// How many workers, 1 to 16.
    pub workers: u64,
    /// The threshold.
    pub beta: u64,
    /// The worker's number.
    pub worker: u64,
}
