//! The reasons why a command of an operator is not carried out.
ghost use Rattle.std.specs.Prelude.{◌≡◌};
ghost use Rattle.amo_operator.specs.declared.halt.Halt.TheVariants.{Memory};

use amo_host::LogFile;
use amo_status::{EarlyAnswers, Refusal};
use std::alloc::{AllocError, AllocFailed};

/// Why a command of an operator is not carried out.
#[derive(Debug, Drop)]
pub enum Halt {
    /// The host's call failed. The host knows why.
    Host,
    /// There was no memory.
    Memory,
    /// Another process had the lock of the answers, however often it was tried.
    Held,
    /// The append of this number, from 1, of this log can't follow those before it.
    Entry(LogFile, usize),
    /// The answer of this number, from 1, that the run has is of no attempt, or of one that an
    /// earlier answer is of.
    Misplaced(usize),
    /// The answer of this number, from 1, names a line that the run doesn't have, or another text
    /// than the line has.
    OtherText(usize),
    /// The answer of this number, from 1, is refused.
    Refused(usize, Refusal),
    /// Each of these answers comes too early, and no other answer is refused.
    Early(EarlyAnswers),
    /// The answer of this number, from 1, is to an attempt that may still run, however often that
    /// was looked at.
    Running(usize),
}

impl From<AllocError> for Halt {
    ghost from_gives = { λ _ e. e ≡ Memory };

    fn from(_: AllocError) -> Self {
        Halt::Memory
    }
}

impl<T: Drop> From<AllocFailed<T>> for Halt {
    ghost from_gives = { λ _ e. e ≡ Memory };

    fn from(_: AllocFailed<T>) -> Self {
        Halt::Memory
    }
}
