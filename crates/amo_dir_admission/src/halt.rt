//! The reasons why a door isn't passed.
ghost use Rattle.std.specs.Prelude.{◌≡◌};
ghost use Rattle.amo_dir_admission.specs.declared.halt.Halt.TheVariants.{Memory};

use crate::model::RunFile;
use std::alloc::{AllocError, AllocFailed};

/// Why a folder is refused.
#[derive(Clone, Copy, Debug, PartialEq, Eq)]
pub enum Refusal {
    /// It is a file, or its name is a link.
    NoFolder,
    /// It belongs to another user.
    Foreign,
    /// Its record is of another version.
    Version,
    /// It isn't there, and the id of a run is named.
    NoRun,
    /// It has an id, and a new run is to be made.
    HasId,
    /// It has neither an id nor a record.
    NoId,
    /// It has no id, and the record of a run of this version.
    LostId,
    /// It has no id, and the record of a run of an earlier version.
    OldRun,
    /// This file, which was made with the id, is missing.
    Missing(RunFile),
    /// This file, which was made with a byte, has none.
    Empty(RunFile),
    /// The run was given up.
    Forgotten,
}

/// Why a door isn't passed.
#[derive(Debug, Drop)]
pub enum Halt {
    /// The host's call failed. The host knows why.
    Host,
    /// There was no memory.
    Memory,
    /// Another process had the lock of the round, however often it was tried.
    Making,
    /// The folder has no id, and a file of this name, so no run can be made there.
    NotNew(String),
    /// The folder is refused.
    Refused(Refusal),
}

impl From<AllocError> for Halt {
    ghost from_gives = { λ _ e. e ≡ Memory };

    fn from(_: AllocError) -> Self {
        Halt::Memory
    }
}

impl<T: Drop> From<AllocFailed<T>> for Halt {
    ghost from_gives = { λ _ e. e ≡ Memory };

    fn from(_: AllocFailed<T>) -> Self {
        Halt::Memory
    }
}
