//! A door: the folder of a run is found or made, and entered.
ghost use Rattle.std.specs.Prelude.{false, true, IfErr, OnOk};
ghost use Rattle.amo_dir_admission.specs.Halting.{Halts};
ghost use Rattle.amo_dir_admission.specs.Phase.{Absent, Begins, Done, Looks, Makes};
ghost use Rattle.amo_dir_admission.specs.Protocol.{absent, found};

use crate::checking::{enter, look_at};
use crate::filling::make_within;
use crate::halt::{Halt, Refusal};
use crate::host::DoorHost;
use crate::making::make_beside;
use crate::model::{Asked, Place, Purpose};

/// Checks that workers may begin in the folder, over a host that has called nothing yet. Makes the
/// folder if it is missing, and a run's files in one that has none.
///
/// The protocol states these rules, and the call keeps them, wherever the process is killed:
///
/// - Nothing is made in a folder before it was checked. It is this user's, its file system is
///   taken, and its version fits. It has no file by which it can't be that of a new run. If the id
///   of a run is named, nothing is made at all.
/// - In a folder that is there, files are made under the lock of the round, once the id was looked
///   for and the folder was checked under that lock. Only the lock's own file is made before.
/// - The id comes after `lock.round`, the answers and the journals of all workers. The folder is
///   synced between them, and after the id. A file that has a byte is never replaced.
/// - A folder that isn't there is made whole under another name, synced, and then renamed. If that
///   fails, it is removed.
/// - It succeeds only if the folder was checked and is whole, the folder above was synced, and then
///   the list was checked.
///
/// # Errors
/// Each reason of `Halt`, of which the phase says the cause.
pub fn open<H: DoorHost>(host: &mut H, asked: Asked) -> Result<(), Halt>
    requires begins { H.stands host.old (Begins asked) }
    ensures done { OnOk result (H.stands host.new Done) }
    ensures halts { IfErr result (λ halt. Halts (H.stands host.new) halt) }
{
    reach(host, asked)?;
    look_at(host, Purpose::Make(asked.is_named))?;
    make_within(host, asked.is_named)?;
    enter(host)?;
    match host.check_list() {
        Ok(()) => Ok(()),
        Err(_) => Err(Halt::Host),
    }
}

/// Finds the folder, or makes it if it isn't there.
///
/// # Errors
/// `Host` if a call failed, and `Refused`.
fn reach<H: DoorHost>(host: &mut H, asked: Asked) -> Result<(), Halt>
    requires begins { H.stands host.old (Begins asked) }
    ensures looks { OnOk result (H.stands host.new (Looks (Purpose.Make asked.is_named))) }
    ensures halts { IfErr result (λ halt. Halts (H.stands host.new) halt) }
{
    match host.is_there() {
        Ok(true) => find(host, asked),
        Ok(false) => make(host, asked),
        Err(_) => Err(Halt::Host),
    }
}

/// Refuses a folder that has an id, if a new run is to be made.
///
/// # Errors
/// `Host` if the call failed, and `Refused`.
fn find<H: DoorHost>(host: &mut H, asked: Asked) -> Result<(), Halt>
    requires found { H.stands host.old (found asked.is_named asked.into) }
    ensures looks { OnOk result (H.stands host.new (Looks (Purpose.Make asked.is_named))) }
    ensures halts { IfErr result (λ halt. Halts (H.stands host.new) halt) }
{
    if !asked.into {
        return Ok(());
    }
    match host.has_id() {
        Ok(false) => Ok(()),
        Ok(true) => Err(Halt::Refused(Refusal::HasId)),
        Err(_) => Err(Halt::Host),
    }
}

/// Makes the folder, unless the id of a run is named.
///
/// # Errors
/// `Host` if a call failed, and `Refused`.
fn make<H: DoorHost>(host: &mut H, asked: Asked) -> Result<(), Halt>
    requires absent { H.stands host.old (absent asked.into asked.is_named) }
    ensures looks { OnOk result (H.stands host.new (Looks (Purpose.Make asked.is_named))) }
    ensures halts { IfErr result (λ halt. Halts (H.stands host.new) halt) }
{
    if asked.is_named {
        return Err(Halt::Refused(Refusal::NoRun));
    }
    make_folder(host, asked.into)
}

/// Makes the folder, which isn't there: whole, or with `into` without its files.
///
/// # Errors
/// `Host` if a call failed.
fn make_folder<H: DoorHost>(host: &mut H, into: bool) -> Result<(), Halt>
    requires absent { H.stands host.old (Absent into) }
    ensures looks { OnOk result (H.stands host.new (Looks (Purpose.Make false))) }
    ensures halts { IfErr result (λ halt. Halts (H.stands host.new) halt) }
{
    if host.check_disk(Place::Above).is_err() {
        return Err(Halt::Host);
    }
    if host.check_list().is_err() {
        return Err(Halt::Host);
    }
    if into {
        make_empty(host)
    } else {
        make_beside(host)
    }
}

/// Makes the folder without files.
///
/// # Errors
/// `Host` if the call failed.
fn make_empty<H: DoorHost>(host: &mut H) -> Result<(), Halt>
    requires makes { H.stands host.old (Makes true) }
    ensures looks { OnOk result (H.stands host.new (Looks (Purpose.Make false))) }
    ensures halts { IfErr result (λ halt. Halts (H.stands host.new) halt) }
{
    match host.make_folder() {
        Ok(()) => Ok(()),
        Err(_) => Err(Halt::Host),
    }
}
