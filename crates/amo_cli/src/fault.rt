//! Faults of a command.
ghost use Rattle.std.specs.Prelude.{◌≡◌};
ghost use Rattle.amo_cli.specs.Faults.{fault_of_replay};
ghost use Rattle.amo_cli.specs.declared.fault.Fault.TheVariants.{NoMemory};

use amo_plan::PlanFault;
use amo_render::ReplayFault;
use std::alloc::AllocError;

/// Why a command wasn't done, or not all of it.
#[derive(Clone, Copy, Debug, PartialEq, Eq)]
pub enum Fault {
    /// The plan was refused, for this fault, which isn't out of memory.
    Plan(PlanFault),
    /// The words are no command.
    NoCommand,
    /// Memory was refused.
    NoMemory,
    /// A thread could not be started. The text of the other threads' work was written.
    Thread,
    /// The reader failed.
    Read,
    /// The writer failed.
    Write,
}

impl From<AllocError> for Fault {
    ghost from_gives = { λ _ e. e ≡ NoMemory };

    fn from(_e: AllocError) -> Fault {
        Fault::NoMemory
    }
}

impl From<ReplayFault> for Fault {
    ghost from_gives = { λ fault e. e ≡ fault_of_replay fault };

    fn from(fault: ReplayFault) -> Fault {
        match fault {
            ReplayFault::Plan(fault) => Fault::Plan(fault),
            ReplayFault::Read => Fault::Read,
            ReplayFault::Write => Fault::Write,
            ReplayFault::NoMemory => Fault::NoMemory,
        }
    }
}
