//! The faults for which a jobs' file is refused.
ghost use Rattle.std.specs.Prelude.{◌≡◌};
ghost use Rattle.amo_run_files.specs.declared.fault.JobsFault.TheVariants.{Memory};

use std::alloc::AllocError;
use thiserror::Error;

/// Why a line of a jobs' file is refused: the first of these, in their order, that holds of it.
#[derive(Clone, Copy, Debug, PartialEq, Eq, Error)]
pub enum Why {
    /// It has no byte before its end.
    #[error("is empty; remove it")]
    Empty,
    /// It has a byte 0.
    #[error("has a NUL byte; remove that byte")]
    Nul,
    /// It has a byte 13.
    #[error("has a carriage return; end lines with a line feed alone")]
    CarriageReturn,
    /// It isn't UTF-8.
    #[error("isn't UTF-8; convert the file to UTF-8")]
    NotText,
    /// It has more than 100,000 bytes.
    #[error("is longer than 100000 bytes; shorten it")]
    TooLong,
    /// A line before it is the same.
    #[error("is equal to a line before it; remove it, or make the two differ")]
    Repeated,
    /// The line has no line feed at its end: its writer may not be done yet.
    #[error("has no line feed at its end; add one once the line is whole")]
    NoEnd,
}

/// Why a jobs' file is refused.
#[derive(Clone, Copy, Debug, PartialEq, Eq, Error)]
pub enum JobsFault {
    /// There was no memory left: nothing is said of the file.
    #[error("out of memory")]
    Memory,
    /// The first line that is refused, by its number, from 1, and why.
    #[error("line {0} {1}")]
    Refused(usize, Why),
}

impl From<AllocError> for JobsFault {
    ghost from_gives = { λ _ e. e ≡ Memory };

    fn from(_: AllocError) -> Self {
        JobsFault::Memory
    }
}
