//! Checks of a run's folder, before anything is made or written there: the code of
//! `amo_dir_admission`, over the files of the folder.
use crate::door_files::DoorFiles;
use amo_dir_admission::Asked;
use amo_run_dir::Age;
use amo_run_faults::{Fault, ListSettings, Setting};
use std::rt::HostRuntime;

/// Checks that workers may begin in this folder. Makes it if it is missing, once the jobs' file is
/// known to be one that a run can have. With `into` it gives the folder its own name. It syncs the
/// folder above, made or found, since a process that made this one may have been killed before
/// that.
///
/// # Errors
///
/// The faults of a refused folder, and `Write` if something can't be made.
pub fn open(
    rt: HostRuntime,
    setting: &Setting<'_>,
    jobs: &ListSettings<'_>,
    into: bool,
) -> Result<(), Fault> {
    let mut files = DoorFiles::new(rt, setting, Some(jobs.list));
    let asked = Asked {
        into,
        is_named: setting.id.is_some(),
    };
    let opened = amo_dir_admission::open(&mut files, asked);
    files.ended(opened)
}

/// Checks that a worker may begin in this folder, and makes nothing. It syncs the folder above.
///
/// # Errors
///
/// The faults of a refused folder.
pub fn enter(rt: HostRuntime, setting: &Setting<'_>) -> Result<(), Fault> {
    let mut files = DoorFiles::new(rt, setting, None);
    let entered = amo_dir_admission::enter(&mut files);
    files.ended(entered)
}

/// Checks that the folder is a run's, so that answers may be written there.
///
/// # Errors
///
/// The faults of a refused folder.
pub fn look_to_write(rt: HostRuntime, setting: &Setting<'_>) -> Result<(), Fault> {
    let mut files = DoorFiles::new(rt, setting, None);
    let looked = amo_dir_admission::look_to_write(&mut files);
    files.ended(looked)
}

/// Checks that the folder can be read as a run's, and returns how it was made.
///
/// # Errors
///
/// The faults of a refused folder.
pub fn look_to_read(rt: HostRuntime, setting: &Setting<'_>) -> Result<Age, Fault> {
    let mut files = DoorFiles::new(rt, setting, None);
    let has_id = amo_dir_admission::look_to_read(&mut files, setting.id.is_some());
    if files.ended(has_id)? {
        Ok(Age::Now)
    } else {
        Ok(Age::Old)
    }
}

/// Checks that the folder can be a run's, whatever its files hold.
///
/// # Errors
/// The faults by which a folder is refused, and `OtherId`.
pub fn look_at_folder(rt: HostRuntime, setting: &Setting<'_>) -> Result<(), Fault> {
    let mut files = DoorFiles::new(rt, setting, None);
    let looked = amo_dir_admission::look_at_folder(&mut files);
    files.ended(looked)
}
