//! The locks of a run, and the guard of a worker's number.
ghost use Rattle.std.specs.Prelude.{◌≡◌, ◌∷◌, [], List, ℕ, Ok, IfOk, IfSome, IfNone, OnOk, OnErr};
ghost use Rattle.amo_system_calls.specs.Calls.{Did, Missed, Open, ReadFile, Look, Lock, Compare, Makes, MakesSome};
ghost use Rattle.amo_system_calls.specs.declared.model.LockMode.TheVariants.{Exclusive};
ghost use Rattle.amo_system_calls.specs.declared.model.Mode.TheVariants.{Read as ToRead};
ghost use Rattle.amo_run_faults.specs.declared.layout.Item.TheVariants.{Id, Forgotten, Journal};
ghost use Rattle.amo_run_faults.specs.Names.{path_in};
ghost use Rattle.amo_run_dir.specs.Modes.{mode_of};
ghost use Rattle.amo_run_dir.specs.Trying.{IfGot, IfHeld, IfMissing};

use crate::files::{opened, opened_to_read, path_of};
use crate::identity::{check_kept, first_checksum};
use crate::logs::log_of;
use amo_fs::FileDevice;
use amo_journal::{DeviceError, RecoverError};
use amo_run_faults::{Fault, Item, Later, Setting, had, written};
use amo_run_files::RoundFile;
use amo_run_journals::OpenJournal;
use amo_system_calls::{LockMode, SystemCalls};
use std::fs::File;

/// Takes a lock on a file of the run, by a new handle. Returns `None` if another process has a lock
/// that excludes it. It doesn't wait. The file must still have its name once it is locked.
///
/// # Errors
/// The fault of a file that can't be opened or locked. `Later` if it was removed or replaced.
pub fn lock_of<S: SystemCalls>(
    system: &mut S,
    setting: &Setting<'_>,
    item: Item,
    mode: LockMode,
) -> Result<Option<S::Handle>, Fault>
    ensures got { let path = path_in setting.now.run.now item in IfOk result (λ it. IfSome it (λ file. Makes (S.has_made system.old) (S.has_made system.new) (Did (Open path (mode_of item)) ∷ Did (Lock path mode) ∷ Did (Compare path path) ∷ []))) }
    ensures path { IfOk result (λ it. IfSome it (λ file. S.opened_by file (path_in setting.now.run.now item))) }
    ensures held { let path = path_in setting.now.run.now item in IfOk result (λ it. IfNone it (Makes (S.has_made system.old) (S.has_made system.new) (Did (Open path (mode_of item)) ∷ Missed (Lock path mode) ∷ []))) }
    ensures fails { let path = path_in setting.now.run.now item in OnErr result (MakesSome (S.has_made system.old) (S.has_made system.new) (Open path (mode_of item) ∷ Lock path mode ∷ Compare path path ∷ [])) }
{
    let file = opened(system, setting, item)?;
    if !written(item, system.try_lock(&file, mode))? {
        return Ok(None);
    }
    check_name(system, setting, item, &file)?;
    Ok(Some(file))
}

/// Checks that the file of a handle still has this name.
///
/// # Errors
/// `Later` if the file was removed or replaced.
fn check_name<S: SystemCalls>(
    system: &mut S,
    setting: &Setting<'_>,
    item: Item,
    file: &S::Handle,
) -> Result<(), Fault>
    ensures done { OnOk result ((path : List ℕ) → S.opened_by file.now path → Makes (S.has_made system.old) (S.has_made system.new) (Did (Compare path (path_in setting.now.run.now item)) ∷ [])) }
    ensures fails { OnErr result ((path : List ℕ) → S.opened_by file.now path → MakesSome (S.has_made system.old) (S.has_made system.new) (Compare path (path_in setting.now.run.now item) ∷ [])) }
{
    let path = path_of(system.alloc(), setting, item)?;
    if had(item, system.is_at(file, path.as_str()))? {
        Ok(())
    } else {
        Err(Fault::Later(Later::Replaced))
    }
}

/// Recovers the journal of a handle that has its lock, and returns the records of its appends. The
/// journal is first compared with what the file of the last round counts of it, so that nothing is
/// cut from one that has lost appends. `last` is that file, which the caller has read before.
///
/// # Errors
/// As [`log_of`]; then nothing was written.
pub fn recovered<S: SystemCalls<Handle = File>>(
    system: &mut S,
    setting: &Setting<'_>,
    item: Item,
    last: Option<&RoundFile>,
    lock: &File,
) -> Result<(OpenJournal<FileDevice>, Vec<Vec<u8>>), Fault> {
    log_of(system, setting, item, last)?;
    let handle = written(item, system.copy(lock))?;
    let device = had(item, FileDevice::open(system.alloc(), handle))?;
    let first = first_checksum(system, setting, item)?;
    match OpenJournal::recover(system.alloc(), device, first) {
        Ok(both) => Ok(both),
        Err(RecoverError::Damaged { number, kind }) => Err(Fault::Damaged(item, number, kind)),
        Err(RecoverError::Device(DeviceError::Memory)) => Err(Fault::Memory),
        Err(RecoverError::Device(DeviceError::Failed)) => Err(Fault::Journal(item)),
    }
}

/// Checks that this process still has the number of a worker. The folder must still be the run's,
/// and the worker's journal the file of `guard`, the handle that has its lock.
///
/// # Errors
/// As [`check_kept`], and `Later` if the journal was removed or replaced.
pub fn check_number<S: SystemCalls>(
    system: &mut S,
    setting: &Setting<'_>,
    worker: u64,
    guard: &S::Handle,
) -> Result<(), Fault>
    ensures done { OnOk result ((path : List ℕ) → S.opened_by guard.now path → Makes (S.has_made system.old) (S.has_made system.new) (Did (ReadFile (path_in setting.now.run.now Id)) ∷ Missed (Look (path_in setting.now.run.now Forgotten)) ∷ Did (Compare path (path_in setting.now.run.now (Journal worker))) ∷ [])) }
{
    check_kept(system, setting)?;
    check_name(system, setting, Item::Journal(worker), guard)
}

/// The result of a try to lock a file that may be missing.
#[derive(Drop)]
pub enum Tried<H> {
    /// It is locked by this handle.
    Got(H),
    /// Another process has the lock.
    Held,
    /// The file is missing.
    Missing,
}

/// Tries once to take the exclusive lock on a file of the run, by a handle that only reads. Makes
/// nothing.
///
/// # Errors
/// `Read` if it can't be opened, `Write` if it can't be locked, and `Memory`.
pub fn try_lock_of<S: SystemCalls>(
    system: &mut S,
    setting: &Setting<'_>,
    item: Item,
) -> Result<Tried<S::Handle>, Fault>
    ensures got { let path = path_in setting.now.run.now item in IfOk result (λ it. IfGot it (λ file. Makes (S.has_made system.old) (S.has_made system.new) (Did (Open path ToRead) ∷ Did (Lock path Exclusive) ∷ []))) }
    ensures path { IfOk result (λ it. IfGot it (λ file. S.opened_by file (path_in setting.now.run.now item))) }
    ensures held { let path = path_in setting.now.run.now item in IfOk result (λ it. IfHeld it (Makes (S.has_made system.old) (S.has_made system.new) (Did (Open path ToRead) ∷ Missed (Lock path Exclusive) ∷ []))) }
    ensures missing { let path = path_in setting.now.run.now item in IfOk result (λ it. IfMissing it (Makes (S.has_made system.old) (S.has_made system.new) (Missed (Open path ToRead) ∷ []))) }
    ensures fails { let path = path_in setting.now.run.now item in OnErr result (MakesSome (S.has_made system.old) (S.has_made system.new) (Open path ToRead ∷ Lock path Exclusive ∷ [])) }
{
    let Some(file) = opened_to_read(system, setting, item)? else {
        return Ok(Tried::Missing);
    };
    if written(item, system.try_lock(&file, LockMode::Exclusive))? {
        Ok(Tried::Got(file))
    } else {
        Ok(Tried::Held)
    }
}
