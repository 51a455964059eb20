//! The givens of a run: the number of jobs, the number of workers, and the threshold.
ghost use Rattle.std.specs.Prelude.{◌≡◌};
ghost use Rattle.amo_params.specs.Limits.{AreWithinLimits};

use crate::limits::{MAX_BETA, MAX_JOBS, MAX_WORKERS};
use thiserror::Error;

/// `GivensFault`: the first limit, in the order of the variants, that three numbers break.
#[derive(Clone, Copy, Debug, PartialEq, Eq, Error)]
pub enum GivensFault {
    /// There are more than 4096 jobs.
    #[error("there are more than 4096 jobs")]
    TooManyJobs,
    /// There are 0 workers.
    #[error("there is no worker")]
    NoWorkers,
    /// There are more than 16 workers.
    #[error("there are more than 16 workers")]
    TooManyWorkers,
    /// The threshold is below the number of workers.
    #[error("the threshold is below the number of workers")]
    BetaLow,
    /// The threshold is above 65535.
    #[error("the threshold is above 65535")]
    BetaHigh,
}

/// `Givens`: the parameters of a run, within their limits. Jobs are `1..=jobs` and workers
/// `1..=workers`. A worker ends once fewer than `beta` jobs are open to it.
///
/// # Examples
///
/// ```
/// use amo_params::{Givens, GivensFault};
///
/// let givens = Givens::try_new(10, 3, 3)?;
/// assert_eq!(rt; (givens.jobs(), givens.workers(), givens.beta()), (10, 3, 3));
/// assert_eq!(rt; givens.bound(), 6);
/// assert_eq!(rt; givens.lone_bound(), 28);
/// assert!(rt; Givens::try_new(10, 3, 2) == Err(GivensFault::BetaLow));
/// ```
#[derive(Clone, Copy, Debug, PartialEq, Eq)]
pub struct Givens {
    /// The number of jobs, 0 to 4096.
    pub jobs: u32,
    /// The number of workers, 1 to 16.
    pub workers: u32,
    /// The threshold, at least `workers` and at most 65535.
    pub beta: u32,
    pub ghost limits: { AreWithinLimits jobs workers beta },
}

impl Givens {
    ghost use Rattle.amo_params.specs.Givens.{bound, givens_of, lone_bound};

    /// Returns the givens of these three numbers.
    ///
    /// # Errors
    ///
    /// The first limit that they break, in the order of the variants of [`GivensFault`].
    pub fn try_new(jobs: u64, workers: u64, beta: u64) -> Result<Givens, GivensFault>
        ensures { result ≡ givens_of jobs workers beta }
    {
        if jobs > MAX_JOBS as u64 {
            return Err(GivensFault::TooManyJobs);
        }
        if workers == 0 {
            return Err(GivensFault::NoWorkers);
        }
        if workers > MAX_WORKERS as u64 {
            return Err(GivensFault::TooManyWorkers);
        }
        if beta < workers {
            return Err(GivensFault::BetaLow);
        }
        if beta > MAX_BETA as u64 {
            return Err(GivensFault::BetaHigh);
        }
        Ok(Givens {
            jobs: jobs as u32,
            workers: workers as u32,
            beta: beta as u32,
        })
    }

    /// Returns the number of jobs.
    pub fn jobs(&self) -> u32
        ensures { result ≡ self.now.jobs }
    {
        self.jobs
    }

    /// Returns the number of workers.
    pub fn workers(&self) -> u32
        ensures { result ≡ self.now.workers }
    {
        self.workers
    }

    /// Returns the threshold.
    pub fn beta(&self) -> u32
        ensures { result ≡ self.now.beta }
    {
        self.beta
    }

    /// Returns how many jobs are done at least once a worker has ended: `jobs - (beta + workers -
    /// 2)`, or 0 if that is negative.
    pub fn bound(&self) -> u32
        ensures { result ≡ bound self.now }
    {
        self.jobs.saturating_sub(self.beta + self.workers - 2)
    }

    /// Returns the number of turns within which a worker alone claims a job or ends: `6 * workers +
    /// jobs`. The worker isn't gone, and nobody else moves between its turns.
    pub fn lone_bound(&self) -> u32
        ensures { result ≡ lone_bound self.now }
    {
        6 * self.workers + self.jobs
    }
}
