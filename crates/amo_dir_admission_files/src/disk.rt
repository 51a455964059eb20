//! The checks that the file system of a run's folder keeps synced data.
use amo_fs::{
    Mount, is_local, mnt_id_in, mount_of_id, open_existing, read_existing, refused_default,
    refused_option,
};
use amo_run_faults::{Disk, Door, Fault, Item, Setting, had};
use amo_system_calls::{Mode, SystemCalls};
use std::alloc::{AllocError, Global};

/// Checks that the folder of this path lies on an accepted file system whose mount keeps synced
/// data. The mount is the one on which an open handle of the folder lies.
///
/// # Errors
///
/// `Door::Disk` if the folder is refused, and `Read` if the system's texts can't be read.
pub(crate) fn check_file_system<S: SystemCalls>(
    system: &mut S,
    setting: &Setting<'_>,
    path: &str,
) -> Result<(), Fault> {
    let folder = had(Item::Run, open_existing(system, path, Mode::Read))?;
    let number = system.number_of(&folder);
    let name = format!(in system.alloc(); "/proc/self/fdinfo/{number}")?;
    let handle = had(Item::Handle, read_existing(system, name.as_str()))?;
    let mounts = had(Item::Mounts, read_existing(system, "/proc/self/mountinfo"))?;
    drop(folder);
    let Some(id) = mnt_id_in(system.alloc(), &handle)? else {
        return Err(refused(Disk::Unknown));
    };
    let Some(mount) = mount_of_id(system.alloc(), &mounts, id)? else {
        return Err(refused(Disk::Unknown));
    };
    check_type(system.alloc(), setting, mount.kind)?;
    check_options(system.alloc(), &mount)?;
    check_defaults(system, &mount)
}

/// Checks that a file system of this type is accepted: it is a known local one, or it is named.
fn check_type(alloc: Global, setting: &Setting<'_>, kind: &[u8]) -> Result<(), Fault> {
    let is_named = match setting.file_system {
        Some(name) => name.as_bytes() == kind,
        None => false,
    };
    if is_named || is_local(kind) {
        return Ok(());
    }
    if kind == b"overlay".as_slice() {
        return Err(refused(Disk::Overlay));
    }
    Err(refused(Disk::Other(text_of(alloc, kind)?)))
}

/// Checks that the mount has no option by which synced data may be lost.
fn check_options(alloc: Global, mount: &Mount<'_>) -> Result<(), Fault> {
    match refused_option(alloc, mount)? {
        Some(option) => Err(refused(Disk::Option(text_of(alloc, option)?))),
        None => Ok(()),
    }
}

/// Checks that ext3 and ext4 have no such option as a default, which their mount doesn't show. If
/// the system has no list of their defaults, as in some containers, nothing is refused.
fn check_defaults<S: SystemCalls>(system: &mut S, mount: &Mount<'_>) -> Result<(), Fault> {
    if mount.kind != b"ext3".as_slice() && mount.kind != b"ext4".as_slice() {
        return Ok(());
    }
    let Some(path) = defaults_of(system, mount.device)? else {
        return Ok(());
    };
    let Some(options) = had(Item::Ext4, system.read_file(path.as_str()))? else {
        return Ok(());
    };
    match refused_default(system.alloc(), &options)? {
        Some(option) => {
            let other = if option == b"data=writeback".as_slice() {
                "data=ordered"
            } else {
                "barrier=1"
            };
            let option = text_of(system.alloc(), option)?;
            let other = String::from_str(system.alloc(), other)?;
            Err(refused(Disk::Default(option, other)))
        }
        None => Ok(()),
    }
}

/// Returns the path of the system's list of options of the ext3 or ext4 file system on this device,
/// which is given as MAJOR:MINOR. Returns `None` if the system has no name of the device.
fn defaults_of<S: SystemCalls>(system: &mut S, device: &[u8]) -> Result<Option<String>, Fault> {
    let device = text_of(system.alloc(), device)?;
    let link = format!(in system.alloc(); "/sys/dev/block/{device}")?;
    let Some(path) = had(Item::Ext4, system.follow(link.as_str()))? else {
        return Ok(None);
    };
    match path.as_str().rsplit_once('/') {
        Some((_, name)) => Ok(Some(format!(in system.alloc(); "/proc/fs/ext4/{name}/options")?)),
        None => Ok(None),
    }
}

fn refused(disk: Disk) -> Fault {
    Fault::Door(Door::Disk(disk))
}

/// Returns these bytes as a text to show.
fn text_of(alloc: Global, bytes: &[u8]) -> Result<String, AllocError> {
    String::from_str(alloc, std::str::from_utf8(bytes).unwrap_or("?"))
}
