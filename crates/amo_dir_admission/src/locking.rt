//! The lock of the round, which keeps out another process that makes the files of a run.
ghost use Rattle.std.specs.Prelude.{false, IfErr, OnOk};
ghost use Rattle.amo_dir_admission.specs.Halting.{Halts};
ghost use Rattle.amo_dir_admission.specs.Phase.{Locked, Locks};

use crate::halt::Halt;
use crate::host::DoorHost;

/// How often the lock is tried, since readers hold it for a moment.
const TRIES: u32 = 100;

/// Takes the lock of the round.
///
/// # Errors
/// `Making` if another process has it at each try, and `Host` if a call failed.
pub(crate) fn lock<H: DoorHost>(host: &mut H) -> Result<(), Halt>
    requires there { H.stands host.old (Locks false) }
    ensures locked { OnOk result (H.stands host.new Locked) }
    ensures halts { IfErr result (λ halt. Halts (H.stands host.new) halt) }
{
    match host.try_lock() {
        Ok(true) => return Ok(()),
        Ok(false) => host.pause(),
        Err(_) => return Err(Halt::Host),
    }
    for _try in 1..TRIES {
        match host.try_lock() {
            Ok(true) => return Ok(()),
            Ok(false) => host.pause(),
            Err(_) => return Err(Halt::Host),
        }
    }
    Err(Halt::Making)
}
