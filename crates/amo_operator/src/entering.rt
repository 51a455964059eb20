//! How a command enters a run: the lock of the answers, and the check of the folder.
ghost use Rattle.std.specs.Prelude.{◌≡◌, false, IfErr, IfOk, OnOk};
ghost use Rattle.amo_operator.specs.Halting.{Halts};
ghost use Rattle.amo_operator.specs.Phase.{Enters, Checked};
ghost use Rattle.amo_operator.specs.Protocol.{enters_if, must_be_kept, only_looks, Lives};

use crate::halt::Halt;
use crate::host::OperatorHost;
use crate::model::{Command, OperatorLock};

/// How often the lock of the answers is tried, and how often a command is carried out anew.
pub(crate) const TRIES: u32 = 40;

/// Enters the run. A command that only looks takes the lock of the answers if it can be had. So two
/// commands don't take each other's locks for those of workers.
///
/// # Errors
/// `Held` if another process has that lock, however often it is tried, and the command needs it.
/// `Host` if a call failed.
pub(crate) fn enter<H: OperatorHost>(host: &mut H, command: &Command) -> Result<(), Halt>
    requires enters { H.stands host.old (Enters command.now false) }
    ensures checked { OnOk result (H.stands host.new (Checked command.now)) }
    ensures halts { IfErr result (λ halt. Halts (H.stands host.new) command.now halt) }
    ensures lives { Lives (H.stands host.new) }
{
    let is_got = guard(host, command)?;
    if !is_got && !only_looks(command) {
        return Err(Halt::Held);
    }
    match host.check_folder(must_be_kept(command)) {
        Ok(()) => Ok(()),
        Err(_) => Err(Halt::Host),
    }
}

/// Tries the lock of the answers, and returns whether it was got.
///
/// # Errors
/// `Host` if a call failed.
fn guard<H: OperatorHost>(host: &mut H, command: &Command) -> Result<bool, Halt>
    requires enters { H.stands host.old (Enters command.now false) }
    ensures tried { IfOk result (λ is_got. H.stands host.new (enters_if command.now is_got)) }
    ensures halts { IfErr result (λ halt. Halts (H.stands host.new) command.now halt) }
    ensures lives { Lives (H.stands host.new) }
{
    match host.try_lock(OperatorLock::Answers) {
        Ok(true) => return Ok(true),
        Ok(false) => {}
        Err(_) => return Err(Halt::Host),
    }
    for _try in 1..TRIES {
        host.pause();
        match host.try_lock(OperatorLock::Answers) {
            Ok(true) => return Ok(true),
            Ok(false) => {}
            Err(_) => return Err(Halt::Host),
        }
    }
    Ok(false)
}

/// Returns true if a command only looks at the run.
pub(crate) fn only_looks(command: &Command) -> bool
    ensures { result ≡ only_looks command.now }
{
    match command {
        Command::Status(_) | Command::Doubts(_) => true,
        Command::Answer(..) | Command::Again => false,
    }
}

/// Returns true if a command must not be carried out on a run that was given up.
fn must_be_kept(command: &Command) -> bool
    ensures { result ≡ must_be_kept command.now }
{
    match command {
        Command::Again => true,
        Command::Status(_) | Command::Doubts(_) | Command::Answer(..) => false,
    }
}
