//! Checks of a run's folder, by which nothing is made there.
ghost use Rattle.std.specs.Prelude.{◌≡◌, ◌∷◌, [], false, IfErr, IfOk, OnOk};
ghost use Rattle.amo_dir_admission.specs.Files.{files_after, has_byte};
ghost use Rattle.amo_dir_admission.specs.Halting.{Halts};
ghost use Rattle.amo_dir_admission.specs.Phase.{Bare, Checked, Dated, Entered, Idless, Looks, Seen, Taken, Whole};
ghost use Rattle.amo_dir_admission.specs.Protocol.{read_as};

use crate::halt::{Halt, Refusal};
use crate::host::DoorHost;
use crate::model::{Place, Purpose, RunFile};
use crate::version::{Version, is_lost, lost_id, version_of};
use amo_params::MAX_WORKERS;

/// Checks that a worker may begin in this folder, and makes nothing. It syncs the folder above,
/// since a process that made this one may have been killed before that.
///
/// # Errors
/// `Host` if a call failed, and `Refused`.
pub fn enter<H: DoorHost>(host: &mut H) -> Result<(), Halt>
    requires looks { H.stands host.old (Looks Purpose.Enter) }
    ensures entered { OnOk result (H.stands host.new Entered) }
    ensures halts { IfErr result (λ halt. Halts (H.stands host.new) halt) }
{
    look_at(host, Purpose::Enter)?;
    check_kept(host)?;
    check_whole(host, Purpose::Enter)?;
    match host.sync_above() {
        Ok(()) => Ok(()),
        Err(_) => Err(Halt::Host),
    }
}

/// Checks that the folder is a run's, so that answers may be written there.
///
/// # Errors
/// `Host` if a call failed, and `Refused`.
pub fn look_to_write<H: DoorHost>(host: &mut H) -> Result<(), Halt>
    requires looks { H.stands host.old (Looks Purpose.Write) }
    ensures whole { OnOk result (H.stands host.new (Whole Purpose.Write [])) }
    ensures halts { IfErr result (λ halt. Halts (H.stands host.new) halt) }
{
    look_at(host, Purpose::Write)?;
    let Ok(has_id) = host.has_id() else {
        return Err(Halt::Host);
    };
    if !has_id {
        return Err(without_id(host));
    }
    check_whole(host, Purpose::Write)
}

/// Checks that the folder can be read as a run's, and returns whether it has an id. One of version
/// 0.1.0 has none, and is read if no id is named.
///
/// # Errors
/// `Host` if a call failed, and `Refused`.
pub fn look_to_read<H: DoorHost>(host: &mut H, is_named: bool) -> Result<bool, Halt>
    requires looks { H.stands host.old (Looks (Purpose.Read is_named)) }
    ensures read { IfOk result (λ has_id. H.stands host.new (read_as is_named has_id)) }
    ensures halts { IfErr result (λ halt. Halts (H.stands host.new) halt) }
{
    look_at(host, Purpose::Read(is_named))?;
    let Ok(has_id) = host.has_id() else {
        return Err(Halt::Host);
    };
    if has_id {
        check_whole(host, Purpose::Read(is_named))?;
    } else {
        check_old(host, is_named)?;
    }
    Ok(has_id)
}

/// Checks that the folder can be a run's, whatever its files hold.
///
/// # Errors
/// `Host` if a call failed, and `Refused`.
pub fn look_at_folder<H: DoorHost>(host: &mut H) -> Result<(), Halt>
    requires looks { H.stands host.old (Looks Purpose.Look) }
    ensures seen { OnOk result (H.stands host.new Seen) }
    ensures halts { IfErr result (λ halt. Halts (H.stands host.new) halt) }
{
    check_folder(host, Purpose::Look)?;
    match host.has_id() {
        Ok(_) => Ok(()),
        Err(_) => Err(Halt::Host),
    }
}

/// Checks that the folder that is there can be a run's of this version, and is one's own.
///
/// # Errors
/// `Host` if a call failed, and `Refused`.
pub(crate) fn look_at<H: DoorHost>(host: &mut H, purpose: Purpose) -> Result<(), Halt>
    requires looks { H.stands host.old (Looks purpose) }
    ensures checked { OnOk result (H.stands host.new (Checked purpose)) }
    ensures halts { IfErr result (λ halt. Halts (H.stands host.new) halt) }
{
    check_folder(host, purpose)?;
    check_version(host, purpose)
}

/// Checks that the folder that is there is one's own, and on a file system that is taken.
///
/// # Errors
/// `Host` if a call failed, and `Refused`.
fn check_folder<H: DoorHost>(host: &mut H, purpose: Purpose) -> Result<(), Halt>
    requires looks { H.stands host.old (Looks purpose) }
    ensures taken { OnOk result (H.stands host.new (Taken purpose)) }
    ensures halts { IfErr result (λ halt. Halts (H.stands host.new) halt) }
{
    let Ok(is_folder) = host.is_folder() else {
        return Err(Halt::Host);
    };
    if !is_folder {
        return Err(Halt::Refused(Refusal::NoFolder));
    }
    let Ok(is_own) = host.is_own() else {
        return Err(Halt::Host);
    };
    if !is_own {
        return Err(Halt::Refused(Refusal::Foreign));
    }
    match host.check_disk(Place::Run) {
        Ok(()) => Ok(()),
        Err(_) => Err(Halt::Host),
    }
}

/// Refuses a folder whose record another version has written.
///
/// # Errors
/// `Host` if a call failed, and `Refused`.
fn check_version<H: DoorHost>(host: &mut H, purpose: Purpose) -> Result<(), Halt>
    requires taken { H.stands host.old (Taken purpose) }
    ensures checked { OnOk result (H.stands host.new (Checked purpose)) }
    ensures halts { IfErr result (λ halt. Halts (H.stands host.new) halt) }
{
    let Ok(record_bytes) = host.read_record() else {
        return Err(Halt::Host);
    };
    match version_of(record_bytes) {
        Version::Fits => Ok(()),
        Version::Old => check_dated(host, purpose),
        Version::Other => Err(Halt::Refused(Refusal::Version)),
    }
}

/// Refuses a folder of version 0.1.0 that has an id, since that version gives none.
///
/// # Errors
/// `Host` if the call failed, and `Refused`.
fn check_dated<H: DoorHost>(host: &mut H, purpose: Purpose) -> Result<(), Halt>
    requires dated { H.stands host.old (Dated purpose) }
    ensures checked { OnOk result (H.stands host.new (Checked purpose)) }
    ensures halts { IfErr result (λ halt. Halts (H.stands host.new) halt) }
{
    match host.has_id() {
        Ok(false) => Ok(()),
        Ok(true) => Err(Halt::Refused(Refusal::Version)),
        Err(_) => Err(Halt::Host),
    }
}

/// Refuses a folder that isn't the run's, or whose run was given up.
///
/// # Errors
/// `Host` if a call failed, and `Refused`.
fn check_kept<H: DoorHost>(host: &mut H) -> Result<(), Halt>
    requires checked { H.stands host.old (Checked Purpose.Enter) }
    ensures kept { OnOk result (H.stands host.new (Whole Purpose.Enter (RunFile.Round ∷ files_after RunFile.Round))) }
    ensures halts { IfErr result (λ halt. Halts (H.stands host.new) halt) }
{
    let Ok(has_id) = host.has_id() else {
        return Err(Halt::Host);
    };
    if !has_id {
        return Err(without_id(host));
    }
    match host.len_of(RunFile::Forgotten) {
        Ok(None) => Ok(()),
        Ok(Some(_)) => Err(Halt::Refused(Refusal::Forgotten)),
        Err(_) => Err(Halt::Host),
    }
}

/// Returns why a folder without an id is refused.
fn without_id<H: DoorHost>(host: &mut H) -> Halt
    requires idless { H.stands host.old Idless }
    ensures { Halts (H.stands host.new) result }
{
    match host.read_record() {
        Ok(None) => Halt::Refused(Refusal::NoId),
        Ok(Some(bytes)) => Halt::Refused(lost_id(&bytes)),
        Err(_) => Halt::Host,
    }
}

/// Refuses a folder without an id if it has lost the id, or if an id is named.
///
/// # Errors
/// `Host` if the call failed, and `Refused`.
fn check_old<H: DoorHost>(host: &mut H, is_named: bool) -> Result<(), Halt>
    requires bare { H.stands host.old (Bare is_named) }
    ensures old { OnOk result (H.stands host.new (read_as is_named false)) }
    ensures halts { IfErr result (λ halt. Halts (H.stands host.new) halt) }
{
    let Ok(record_bytes) = host.read_record() else {
        return Err(Halt::Host);
    };
    if is_lost(record_bytes) {
        return Err(Halt::Refused(Refusal::LostId));
    }
    if is_named {
        return Err(Halt::Refused(Refusal::NoId));
    }
    Ok(())
}

/// Refuses a folder in which a file is missing that was made with the id, or has lost all its
/// bytes.
///
/// # Errors
/// `Host` if a call failed, and `Refused`.
fn check_whole<H: DoorHost>(host: &mut H, purpose: Purpose) -> Result<(), Halt>
    requires left { H.stands host.old (Whole purpose (RunFile.Round ∷ files_after RunFile.Round)) }
    ensures whole { OnOk result (H.stands host.new (Whole purpose [])) }
    ensures halts { IfErr result (λ halt. Halts (H.stands host.new) halt) }
{
    check_file(host, purpose, RunFile::Round)?;
    check_file(host, purpose, RunFile::Answers)?;
    for p in 0..MAX_WORKERS as u64 {
        check_file(host, purpose, RunFile::Journal(p + 1))?;
    }
    Ok(())
}

/// Refuses a folder in which this file, the next one, is missing or has lost all its bytes.
///
/// # Errors
/// `Host` if the call failed, and `Refused`.
fn check_file<H: DoorHost>(host: &mut H, purpose: Purpose, file: RunFile) -> Result<(), Halt>
    requires left { H.stands host.old (Whole purpose (file ∷ files_after file)) }
    ensures whole { OnOk result (H.stands host.new (Whole purpose (files_after file))) }
    ensures halts { IfErr result (λ halt. Halts (H.stands host.new) halt) }
{
    let Ok(len) = host.len_of(file) else {
        return Err(Halt::Host);
    };
    let Some(len) = len else {
        return Err(Halt::Refused(Refusal::Missing(file)));
    };
    if has_byte(file) && len == 0 {
        return Err(Halt::Refused(Refusal::Empty(file)));
    }
    Ok(())
}

/// Returns true if a file is made with a byte.
fn has_byte(file: RunFile) -> bool
    ensures { result ≡ has_byte file }
{
    match file {
        RunFile::Round => false,
        RunFile::Answers | RunFile::Journal(_) | RunFile::Id | RunFile::Forgotten => true,
    }
}
