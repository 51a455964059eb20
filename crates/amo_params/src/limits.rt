//! The limits of the numbers of a run.

/// The most jobs of one run, 4096.
pub const MAX_JOBS: u32 = 4096;

/// The most workers of one run, 16.
pub const MAX_WORKERS: u32 = 16;

/// The highest threshold, 65535.
pub const MAX_BETA: u32 = 65535;

/// The largest step budget of a worker, 10,000,000 steps. A worker is halted once its budget is
/// used up.
pub const MAX_STEPS: u64 = 10_000_000;

/// The most bytes of a text that is read, 1,048,576: a plan or a history.
pub const MAX_TEXT: usize = 1_048_576;
