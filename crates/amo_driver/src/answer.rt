//! The replies of a partner on a job that it was to perform.
ghost use Rattle.std.specs.Prelude.{◌≡◌};
ghost use Rattle.amo_driver.specs.Life.{heard_of};

use crate::stop::Stop;

/// The result of a job, to be noted.
#[derive(Clone, Copy, Debug, PartialEq, Eq)]
pub enum JobResult {
    /// It was performed, and ended with this code.
    Done(u8),
    /// It may or may not have been performed.
    Doubt,
    /// It was certainly not begun.
    Unbegun,
    /// It ended with this code, which means that it did nothing.
    Untouched(u8),
}

/// The partner's wish whether the worker goes on.
#[derive(Clone, Copy, Debug, PartialEq, Eq)]
pub enum Way {
    /// It goes on.
    Go,
    /// It files the job, leaves and ends.
    Leave,
}

/// The reply of a partner.
#[derive(Clone, Copy, Debug, PartialEq, Eq)]
pub enum Reply {
    /// Of the intent of this serial number: what became of its job.
    Answered(u64, JobResult, Way),
    /// The job of the intent of this serial number still runs. Its result is to be asked for later.
    Running(u64, Way),
    /// The reply is invalid.
    Garbled,
    /// The partner is gone.
    Closed,
}

/// The news on an intent.
#[derive(Clone, Copy, Debug, PartialEq, Eq)]
pub(crate) enum Heard {
    /// Its job ended with this result.
    Ended(JobResult, Way),
    /// Its job still runs.
    Runs(Way),
    /// Nothing, and nothing will be.
    Silence,
}

impl Reply {
    /// Returns the news on the intent of this serial number. A reply on another intent has none.
    pub(crate) fn heard_of(self, serial: u64) -> Result<Heard, Stop>
        ensures { result ≡ heard_of serial self }
    {
        match self {
            Reply::Answered(of, answer, way) if of == serial => Ok(Heard::Ended(answer, way)),
            Reply::Running(of, way) if of == serial => Ok(Heard::Runs(way)),
            Reply::Answered(of, _, _) | Reply::Running(of, _) => Err(Stop::OtherAnswer(serial, of)),
            Reply::Garbled => Err(Stop::NoAnswer(serial)),
            Reply::Closed => Ok(Heard::Silence),
        }
    }
}
