//! The run's folder: its files, each opened, read and made by its name.
ghost use Rattle.std.specs.Prelude.{◌≡◌, ◌∷◌, [], ◌++◌, codes, string_bytes, IfOk, IfErr, IfSome, IfNone, OnOk, OnErr};
ghost use Rattle.amo_system_calls.specs.Calls.{Did, Missed, Open, ReadFile, ReadFrom, Write, Sync, Rename, Makes, MakesSome};
ghost use Rattle.amo_system_calls.specs.declared.model.Mode.TheVariants.{Read as ToRead, MakeOrEmpty};
ghost use Rattle.amo_run_faults.specs.declared.error.Fault.TheVariants.{Memory};
ghost use Rattle.amo_run_faults.specs.Names.{path_in};
ghost use Rattle.amo_run_dir.specs.Modes.{mode_of};

use amo_fs::{read_synced, replace_file, replace_unsynced, sync_folder};
use amo_run_faults::{Fault, Item, Setting, had, written};
use amo_system_calls::{Mode, SystemCalls};
use std::alloc::Global;

/// Returns the path of a file of the run.
///
/// # Errors
/// `Memory` if there was no memory.
pub fn path_of(alloc: Global, setting: &Setting<'_>, item: Item) -> Result<String, Fault>
    ensures path { IfOk result (λ path. string_bytes path ≡ path_in setting.now.run.now item) }
    ensures fails { IfErr result (λ fault. fault ≡ Memory) }
{
    let run = setting.run;
    Ok(format!(in alloc; "{run}/{item}")?)
}

/// Returns the bytes of a file of the run, or `None` if it is missing.
///
/// # Errors
/// `Read` if the file can't be read, or `Memory` if there was no memory.
pub fn bytes_of<S: SystemCalls>(
    system: &mut S,
    setting: &Setting<'_>,
    item: Item,
) -> Result<Option<Vec<u8>>, Fault>
    ensures done { IfOk result (λ bytes. IfSome bytes (λ _. Makes (S.has_made system.old) (S.has_made system.new) (Did (ReadFile (path_in setting.now.run.now item)) ∷ []))) }
    ensures missing { IfOk result (λ bytes. IfNone bytes (Makes (S.has_made system.old) (S.has_made system.new) (Missed (ReadFile (path_in setting.now.run.now item)) ∷ []))) }
    ensures fails { OnErr result (MakesSome (S.has_made system.old) (S.has_made system.new) (ReadFile (path_in setting.now.run.now item) ∷ [])) }
{
    let path = path_of(system.alloc(), setting, item)?;
    had(item, system.read_file(path.as_str()))
}

/// Returns how a file of the run is opened to be locked and written. Only the lock of a runner is
/// made if it is missing. Every other file was made with the run's id, and is never made again.
fn mode_of(item: Item) -> Mode
    ensures { result ≡ mode_of item }
{
    match item {
        Item::Runner(_) => Mode::MakeOrReadWrite,
        _ => Mode::ReadWrite,
    }
}

/// Opens a file of the run to read and write.
///
/// # Errors
/// `Missing` if it isn't there, else `Write`, or `Memory`.
pub(crate) fn opened<S: SystemCalls>(
    system: &mut S,
    setting: &Setting<'_>,
    item: Item,
) -> Result<S::Handle, Fault>
    ensures done { OnOk result (Makes (S.has_made system.old) (S.has_made system.new) (Did (Open (path_in setting.now.run.now item) (mode_of item)) ∷ [])) }
    ensures path { IfOk result (λ file. S.opened_by file (path_in setting.now.run.now item)) }
    ensures fails { OnErr result (MakesSome (S.has_made system.old) (S.has_made system.new) (Open (path_in setting.now.run.now item) (mode_of item) ∷ [])) }
{
    let path = path_of(system.alloc(), setting, item)?;
    match written(item, system.open(path.as_str(), mode_of(item)))? {
        Some(file) => Ok(file),
        None => Err(Fault::Missing(item)),
    }
}

/// Opens a file of the run to read, if there is one.
///
/// # Errors
/// `Read` for the system's, and `Memory`.
pub(crate) fn opened_to_read<S: SystemCalls>(
    system: &mut S,
    setting: &Setting<'_>,
    item: Item,
) -> Result<Option<S::Handle>, Fault>
    ensures done { IfOk result (λ it. IfSome it (λ file. Makes (S.has_made system.old) (S.has_made system.new) (Did (Open (path_in setting.now.run.now item) ToRead) ∷ []))) }
    ensures path { IfOk result (λ it. IfSome it (λ file. S.opened_by file (path_in setting.now.run.now item))) }
    ensures missing { IfOk result (λ it. IfNone it (Makes (S.has_made system.old) (S.has_made system.new) (Missed (Open (path_in setting.now.run.now item) ToRead) ∷ []))) }
    ensures fails { OnErr result (MakesSome (S.has_made system.old) (S.has_made system.new) (Open (path_in setting.now.run.now item) ToRead ∷ [])) }
{
    let path = path_of(system.alloc(), setting, item)?;
    had(item, system.open(path.as_str(), Mode::Read))
}

/// Syncs the folder, made or found, since a process that made a file in it may have been killed
/// before that.
///
/// # Errors
/// `Write` if it can't be synced, and `Memory`.
pub fn sync<S: SystemCalls>(system: &mut S, setting: &Setting<'_>) -> Result<(), Fault>
    ensures done { OnOk result (Makes (S.has_made system.old) (S.has_made system.new) (Did (Open setting.now.run.now ToRead) ∷ Did (Sync setting.now.run.now) ∷ [])) }
    ensures fails { OnErr result (MakesSome (S.has_made system.old) (S.has_made system.new) (Open setting.now.run.now ToRead ∷ Sync setting.now.run.now ∷ [])) }
{
    written(Item::Run, sync_folder(system, setting.run))
}

/// Replaces a file of the run by one with these bytes, which are on the disk when this returns. A
/// crash leaves the old file or the new one.
///
/// # Errors
/// `Write` if that fails, and `Memory`.
pub fn replaced<S: SystemCalls>(
    system: &mut S,
    setting: &Setting<'_>,
    item: Item,
    bytes: &[u8],
) -> Result<(), Fault>
    ensures done { let path = path_in setting.now.run.now item in let beside = path ++ codes ".new" in OnOk result (Makes (S.has_made system.old) (S.has_made system.new) (Did (Open beside MakeOrEmpty) ∷ Did (Write beside bytes.now) ∷ Did (Sync beside) ∷ Did (Rename beside path) ∷ Did (Open setting.now.run.now ToRead) ∷ Did (Sync setting.now.run.now) ∷ [])) }
    ensures fails { let path = path_in setting.now.run.now item in let beside = path ++ codes ".new" in OnErr result (MakesSome (S.has_made system.old) (S.has_made system.new) (Open beside MakeOrEmpty ∷ Write beside bytes.now ∷ Sync beside ∷ Rename beside path ∷ Open setting.now.run.now ToRead ∷ Sync setting.now.run.now ∷ [])) }
{
    let path = path_of(system.alloc(), setting, item)?;
    let beside = format!(in system.alloc(); "{path}.new")?;
    let run = setting.run;
    let made = replace_file(system, run, path.as_str(), beside.as_str(), bytes);
    written(item, made)
}

/// Replaces a file of the run by one with these bytes, and syncs nothing.
///
/// # Errors
/// `Write` if that fails, and `Memory`.
pub fn replaced_unsynced<S: SystemCalls>(
    system: &mut S,
    setting: &Setting<'_>,
    item: Item,
    bytes: &[u8],
) -> Result<(), Fault>
    ensures done { let path = path_in setting.now.run.now item in let beside = path ++ codes ".new" in OnOk result (Makes (S.has_made system.old) (S.has_made system.new) (Did (Open beside MakeOrEmpty) ∷ Did (Write beside bytes.now) ∷ Did (Rename beside path) ∷ [])) }
    ensures fails { let path = path_in setting.now.run.now item in let beside = path ++ codes ".new" in OnErr result (MakesSome (S.has_made system.old) (S.has_made system.new) (Open beside MakeOrEmpty ∷ Write beside bytes.now ∷ Rename beside path ∷ [])) }
{
    let path = path_of(system.alloc(), setting, item)?;
    let beside = format!(in system.alloc(); "{path}.new")?;
    let made = replace_unsynced(system, path.as_str(), beside.as_str(), bytes);
    written(item, made)
}

/// Returns the bytes of the file of this path outside of the folder, all of them on the disk. It
/// syncs the file that it has read, also if another has come into its place meanwhile.
///
/// # Errors
/// `Read` for the system's, and `Memory`.
pub fn synced_bytes<S: SystemCalls>(
    system: &mut S,
    item: Item,
    path: &str,
) -> Result<Vec<u8>, Fault>
    ensures done { OnOk result (Makes (S.has_made system.old) (S.has_made system.new) (Did (Open path.now ToRead) ∷ Did (ReadFrom path.now 0) ∷ Did (Sync path.now) ∷ [])) }
    ensures fails { OnErr result (MakesSome (S.has_made system.old) (S.has_made system.new) (Open path.now ToRead ∷ ReadFrom path.now 0 ∷ Sync path.now ∷ [])) }
{
    had(item, read_synced(system, path))
}
