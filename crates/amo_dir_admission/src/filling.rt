//! Making of a run's files in a folder that is there.
ghost use Rattle.std.specs.Prelude.{◌∷◌, [], false, true, IfErr, OnErr, OnOk};
ghost use Rattle.amo_dir_admission.specs.declared.model.Purpose.{Purpose};
ghost use Rattle.amo_dir_admission.specs.Files.{files_after};
ghost use Rattle.amo_dir_admission.specs.Halting.{Halts};
ghost use Rattle.amo_dir_admission.specs.Phase.{Checked, Ended, Locked, Locks, Looks, Made, New, Puts, Recordless};
ghost use Rattle.amo_dir_admission.specs.Protocol.{cleared};

use crate::halt::{Halt, Refusal};
use crate::host::{DoorHost, Failed};
use crate::locking::lock;
use crate::making::first_bytes;
use crate::model::{Place, RunFile};
use crate::names::first_refused;
use crate::version::lost_id;
use amo_params::MAX_WORKERS;

/// Makes a run's files in a folder that has no id, or goes on with a door that was cut off. A
/// folder that has an id stays as it is. Each file is made whole under another name, and the id
/// last. The lock of the round keeps out another process that does the same.
///
/// # Errors
/// `Refused` if the id of a run is named, or if the folder has lost its id. `NotNew` if it has a
/// file that no door leaves. `Making` if another process makes the files for too long. `Host` if a
/// call failed, and `Memory`.
pub(crate) fn make_within<H: DoorHost>(host: &mut H, is_named: bool) -> Result<(), Halt>
    requires checked { H.stands host.old (Checked (Purpose.Make is_named)) }
    ensures looks { OnOk result (H.stands host.new (Looks Purpose.Enter)) }
    ensures halts { IfErr result (λ halt. Halts (H.stands host.new) halt) }
{
    let Ok(has_id) = host.has_id() else {
        return Err(Halt::Host);
    };
    if has_id {
        return Ok(());
    }
    if is_named {
        return Err(Halt::Refused(Refusal::NoId));
    }
    prepare(host)?;
    lock(host)?;
    make_locked(host)?;
    host.unlock();
    Ok(())
}

/// Checks that a run can be made in the folder, and makes the file whose lock is then taken.
///
/// # Errors
/// `Refused`, `NotNew`, `Host` if a call failed, and `Memory`. Nothing was made, unless it is
/// `Host`.
fn prepare<H: DoorHost>(host: &mut H) -> Result<(), Halt>
    requires new { H.stands host.old (New false) }
    ensures there { OnOk result (H.stands host.new (Locks false)) }
    ensures halts { IfErr result (λ halt. Halts (H.stands host.new) halt) }
{
    check_new(host, false)?;
    if host.check_list().is_err() {
        return Err(Halt::Host);
    }
    if host.draw_name(Place::Run).is_err() {
        return Err(Halt::Host);
    }
    match host.put(RunFile::Round, first_bytes(RunFile::Round)) {
        Ok(()) => Ok(()),
        Err(_) => Err(Halt::Host),
    }
}

/// Makes the files under the lock of the round, unless another process has made them meanwhile.
///
/// # Errors
/// `Refused`, `NotNew`, `Host` if a call failed, and `Memory`.
fn make_locked<H: DoorHost>(host: &mut H) -> Result<(), Halt>
    requires locked { H.stands host.old Locked }
    ensures made { OnOk result (H.stands host.new Made) }
    ensures halts { IfErr result (λ halt. Halts (H.stands host.new) halt) }
{
    let Ok(has_id) = host.has_id() else {
        return Err(Halt::Host);
    };
    if has_id {
        return Ok(());
    }
    check_new(host, true)?;
    match put_all(host) {
        Ok(()) => Ok(()),
        Err(_) => Err(Halt::Host),
    }
}

/// Refuses a folder that can't be that of a new run: it has a record, or a file that no door
/// leaves.
///
/// # Errors
/// `Refused`, `NotNew`, `Host` if a call failed, and `Memory`.
fn check_new<H: DoorHost>(host: &mut H, locked: bool) -> Result<(), Halt>
    requires new { H.stands host.old (New locked) }
    ensures clear { OnOk result (H.stands host.new (cleared locked)) }
    ensures halts { IfErr result (λ halt. Halts (H.stands host.new) halt) }
{
    match host.read_record() {
        Ok(None) => check_files(host, locked),
        Ok(Some(bytes)) => Err(Halt::Refused(lost_id(&bytes))),
        Err(_) => Err(Halt::Host),
    }
}

/// Refuses a folder that has a file which no door leaves.
///
/// # Errors
/// `NotNew`, `Host` if the call failed, and `Memory`.
fn check_files<H: DoorHost>(host: &mut H, locked: bool) -> Result<(), Halt>
    requires recordless { H.stands host.old (Recordless locked) }
    ensures clear { OnOk result (H.stands host.new (cleared locked)) }
    ensures halts { IfErr result (λ halt. Halts (H.stands host.new) halt) }
{
    let Ok(files) = host.files() else {
        return Err(Halt::Host);
    };
    match first_refused(&files) {
        Some(file) => Err(Halt::NotNew(file.name.clone()?)),
        None => Ok(()),
    }
}

/// Makes each file that is missing or has no byte, in the order of the protocol, and the id last.
///
/// # Errors
/// `Failed` if a call failed.
fn put_all<H: DoorHost>(host: &mut H) -> Result<(), Failed>
    requires left { H.stands host.old (Puts (files_after RunFile.Round)) }
    ensures made { OnOk result (H.stands host.new Made) }
    ensures fails { OnErr result (H.stands host.new Ended) }
{
    put_first(host, RunFile::Answers)?;
    for p in 0..MAX_WORKERS as u64 {
        put_first(host, RunFile::Journal(p + 1))?;
    }
    put_id(host)
}

/// Makes this file, the next one, if it is missing or has no byte.
///
/// # Errors
/// `Failed` if a call failed.
fn put_first<H: DoorHost>(host: &mut H, file: RunFile) -> Result<(), Failed>
    requires left { H.stands host.old (Puts (file ∷ files_after file)) }
    ensures put { OnOk result (H.stands host.new (Puts (files_after file))) }
    ensures fails { OnErr result (H.stands host.new Ended) }
{
    let Some(len) = host.len_of(file)? else {
        return host.put(file, first_bytes(file));
    };
    if len == 0 {
        host.replace(file, first_bytes(file))
    } else {
        Ok(())
    }
}

/// Makes the id, once the other files are on the disk, and syncs the folder.
///
/// # Errors
/// `Failed` if a call failed.
fn put_id<H: DoorHost>(host: &mut H) -> Result<(), Failed>
    requires there { H.stands host.old (Puts []) }
    ensures made { OnOk result (H.stands host.new Made) }
    ensures fails { OnErr result (H.stands host.new Ended) }
{
    host.sync_folder()?;
    let id = host.draw_id()?;
    host.put(RunFile::Id, &id)?;
    host.sync_folder()
}
