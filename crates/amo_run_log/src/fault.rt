//! The faults of a file that is read.
ghost use Rattle.std.specs.Prelude.{◌≡◌};
ghost use Rattle.amo_run_log.specs.declared.fault.Fault.TheVariants.{Memory};

use std::alloc::{AllocError, AllocFailed};

/// The reason that a file was refused.
#[derive(Clone, Copy, Debug, PartialEq, Eq)]
pub enum Fault {
    /// There was no memory. Nothing is known of the file.
    Memory,
    /// The text of this number, from 1, is invalid, or may not follow those before it.
    Refused(usize),
}

impl From<AllocError> for Fault {
    ghost from_gives = { λ _ e. e ≡ Memory };

    fn from(_: AllocError) -> Self {
        Fault::Memory
    }
}

impl<T: Drop> From<AllocFailed<T>> for Fault {
    ghost from_gives = { λ _ e. e ≡ Memory };

    fn from(_: AllocFailed<T>) -> Self {
        Fault::Memory
    }
}
