//! The fault of the last call of a host.
ghost use Rattle.std.specs.Prelude.{◌≡◌, true, is_err, Some, None, Ok, Err, IfOk, IfErr};
ghost use Rattle.amo_journal.specs.declared.device.DeviceError.TheVariants.{Memory as NoMemory};
ghost use Rattle.amo_journal.specs.declared.journal.AppendError.TheVariants.{Device};
ghost use Rattle.amo_run_faults.specs.declared.error.Fault.TheVariants.{Journal, Memory};

use amo_host::Failed;
use amo_journal::{AppendError, DeviceError};
use amo_run_faults::{Fault, Item};
use std::marker::Model;

/// The fault of the last call that has failed. Contracts see it as an option.
#[derive(Drop)]
pub struct LastFault {
    fault: Option<Fault>,
}

impl Model for LastFault {
    ghost use Rattle.std.specs.Prelude.{Option};
    ghost use Rattle.amo_run_faults.specs.declared.error.Fault.{Fault};

    ghost Value = { Option Fault };

    ghost view = { λ last. last.fault };
}

impl LastFault {
    /// Returns no fault.
    pub fn none() -> LastFault
        ensures { result ≡ None }
    {
        LastFault { fault: None }
    }

    /// Returns what a call has returned, and remembers why it has failed, if it has.
    ///
    /// # Errors
    /// `Failed` if the call has failed.
    pub fn told<T>(&mut self, given: Result<T, Fault>) -> Result<T, Failed>
        ensures done { IfOk given (λ value. result ≡ Ok value) }
        ensures kept { IfOk given (λ value. self.new ≡ self.old) }
        ensures fails { IfErr given (λ fault. is_err result ≡ true) }
        ensures noted { IfErr given (λ fault. self.new ≡ Some fault) }
    {
        match given {
            Ok(value) => Ok(value),
            Err(fault) => {
                self.fault = Some(fault);
                Err(Failed)
            }
        }
    }

    /// Returns the fault, if there is one, and forgets it.
    pub fn take(&mut self) -> Option<Fault>
        ensures taken { result ≡ self.old }
        ensures forgotten { self.new ≡ None }
    {
        self.fault.take()
    }
}

/// Returns what an append to this file has returned: the journal.
///
/// # Errors
/// `Journal` if the append has failed, and `Memory`.
pub fn appended<T>(item: Item, given: Result<T, AppendError>) -> Result<T, Fault>
    ensures done { IfOk given (λ journal. result ≡ Ok journal) }
    ensures memory { given ≡ Err (Device NoMemory) → result ≡ Err Memory }
    ensures fails { IfErr given (λ error. (error ≡ Device NoMemory → ⊥) → result ≡ Err (Journal item)) }
{
    match given {
        Ok(journal) => Ok(journal),
        Err(AppendError::Device(DeviceError::Memory)) => Err(Fault::Memory),
        Err(_) => Err(Fault::Journal(item)),
    }
}
