//! The faults that end a day early.
ghost use Rattle.std.specs.Prelude.{◌≡◌};
ghost use Rattle.amo_example_payments.specs.Faults.{fault_of_device, fault_of_reading, fault_of_recovery, fault_of_round, fault_of_leftover};
ghost use Rattle.amo_example_payments.specs.declared.fault.Fault.TheVariants.{Memory};

use crate::rounds::RoundFault;
use crate::second::LeftoverFault;
use amo_journal::{DamageKind, DeviceError, RecoverError};
use std::alloc::AllocError;

/// The fault that ended a day early. The journal has what was paid by then.
#[derive(Clone, Copy, Debug, PartialEq, Eq)]
pub enum Fault {
    /// A line of the input is invalid, or its last line has no end.
    Line,
    /// The input can't be read.
    Input,
    /// The crew of the input is outside its ranges: from 1 to 16 workers, and at most 10,000,000
    /// steps.
    Crew,
    /// The journal can't be recovered: its disk failed.
    Journal,
    /// The journal is damaged at the append of this number, from 1.
    Damaged(usize, DamageKind),
    /// The entry of this number in the journal, from 1, is invalid, or may not follow those before
    /// it. An intent of a payment that the day doesn't have is such an entry: the journal is that
    /// of another day.
    Entry(usize),
    /// The report can't be written.
    Output,
    /// Memory was refused.
    Memory,
    /// A round or a floor could not be settled or sorted.
    Unsettled,
}

impl From<AllocError> for Fault {
    ghost from_gives = { λ _ fault. fault ≡ Memory };

    fn from(_: AllocError) -> Fault {
        Fault::Memory
    }
}

impl From<DeviceError> for Fault {
    ghost from_gives = { λ device fault. fault ≡ fault_of_device device };

    fn from(fault: DeviceError) -> Fault {
        match fault {
            DeviceError::Memory => Fault::Memory,
            DeviceError::Failed => Fault::Journal,
        }
    }
}

impl From<RecoverError> for Fault {
    ghost from_gives = { λ error fault. fault ≡ fault_of_recovery error };

    fn from(error: RecoverError) -> Fault {
        match error {
            RecoverError::Device(fault) => Fault::from(fault),
            RecoverError::Damaged { number, kind } => Fault::Damaged(number, kind),
        }
    }
}

impl From<amo_run_log::Fault> for Fault {
    ghost from_gives = { λ reading fault. fault ≡ fault_of_reading reading };

    fn from(fault: amo_run_log::Fault) -> Fault {
        match fault {
            amo_run_log::Fault::Memory => Fault::Memory,
            amo_run_log::Fault::Refused(number) => Fault::Entry(number),
        }
    }
}

impl From<RoundFault> for Fault {
    ghost from_gives = { λ round fault. fault ≡ fault_of_round round };

    fn from(fault: RoundFault) -> Fault {
        match fault {
            RoundFault::Unpaid(_) => Fault::Memory,
            RoundFault::Unsettled(_) | RoundFault::Unsorted(_) => Fault::Unsettled,
        }
    }
}

impl<P: Drop, Out: Drop> From<LeftoverFault<P, Out>> for Fault {
    ghost from_gives = { λ rest fault. fault ≡ fault_of_leftover rest };

    fn from(fault: LeftoverFault<P, Out>) -> Fault {
        match fault {
            LeftoverFault::Untried(_) | LeftoverFault::Unhired(_, _) => Fault::Memory,
            LeftoverFault::Unsettled(_, _, _) => Fault::Unsettled,
        }
    }
}
