//! The faults of a plan.
ghost use Rattle.std.specs.Prelude.{◌≡◌, ◌↔◌, IsTrue};
ghost use Rattle.amo_plan.specs.declared.fault.PlanFault.TheVariants.{NoMemory};

use amo_params::GivensFault;
use std::alloc::{AllocError, AllocFailed};
use thiserror::Error;

/// `PlanFault`: the first test that a text fails, or out of memory. Jobs and words are numbered
/// from 1, and 0 is the top level. A number above 4294967295 is given as that; no text within the
/// limit reaches it.
#[derive(Clone, Copy, Debug, PartialEq, Eq, Error)]
pub enum PlanFault {
    /// The text isn't a TOML document, or isn't UTF-8.
    #[error("the text is no TOML")]
    NotToml,
    /// The format doesn't have this key, at the top level or in this job.
    #[error("unknown key in {0}")]
    UnknownKey(u32),
    /// A needed key is absent, at the top level or in this job.
    #[error("missing key in {0}")]
    MissingKey(u32),
    /// A value has another kind than its key, at the top level or in this job.
    #[error("value of another kind in {0}")]
    WrongKind(u32),
    /// The numbers of jobs (or of their blocks) and workers and the threshold break a limit.
    #[error("{0}")]
    BadGivens(GivensFault),
    /// This job has the name of an earlier one.
    #[error("job {0} has the name of an earlier one")]
    TwoNames(u32),
    /// The name of this job isn't 1 to 64 ASCII letters, ASCII digits, `_`, `-` and `.`.
    #[error("job {0} has no proper name")]
    BadName(u32),
    /// The numbers of this job add up to more than 18446744073709551615.
    #[error("the sum of job {0} has more than 64 bits")]
    SumTooLarge(u32),
    /// The word at this place of the schedule is invalid.
    #[error("word {0} of the schedule is none")]
    BadScheduleWord(u32),
    /// The word at this place of the schedule names a worker above the number of workers.
    #[error("word {0} of the schedule names no worker")]
    NoSuchWorker(u32),
    /// The plan has more than 1,048,576 bytes, 100,000 moves, 10,000 passes, or 10,000,000 steps of
    /// a worker.
    #[error("the plan is too long")]
    TooLong,
    /// Memory for the plan was refused.
    #[error("out of memory")]
    NoMemory,
}

impl PlanFault {
    /// Returns true if memory was refused, and the text has no fault that was found.
    ///
    /// # Examples
    ///
    /// ```
    /// use amo_plan::{PlanFault, read_plan};
    ///
    /// let fault = match read_plan(rt.alloc(), "version = 3".as_bytes()) {
    ///     Ok(_) => panic!(rt; "no format has version 3"),
    ///     Err(fault) => fault,
    /// };
    /// assert!(rt; !fault.is_memory() && PlanFault::NoMemory.is_memory());
    /// ```
    pub fn is_memory(&self) -> bool
        ensures { IsTrue result ↔ (self.now ≡ NoMemory) }
    {
        matches!(self, PlanFault::NoMemory)
    }
}

impl From<AllocError> for PlanFault {
    ghost from_gives = { λ _ e. e ≡ NoMemory };

    fn from(_e: AllocError) -> PlanFault {
        PlanFault::NoMemory
    }
}

impl<T: Drop> From<AllocFailed<T>> for PlanFault {
    ghost from_gives = { λ _ e. e ≡ NoMemory };

    fn from(_e: AllocFailed<T>) -> PlanFault {
        PlanFault::NoMemory
    }
}
