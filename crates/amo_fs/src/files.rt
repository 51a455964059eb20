//! Making and replacing files of a folder, each so that a power cut leaves all of it or nothing.
ghost use Rattle.std.specs.Prelude.{◌≡◌, ◌∷◌, [], ◌⊎◌, true, false, List, IfOk, OnOk, OnErr};
ghost use Rattle.amo_system_calls.specs.Calls.{Made, Did, Missed, Fell, Open, ReadFile, ReadFrom, Write, Sync, Rename, Link, Remove, Makes, MakesSome, HasStopped, after_all};
ghost use Rattle.amo_system_calls.specs.declared.model.Mode.TheVariants.{Read as ToRead, MakeNew, MakeOrEmpty};

use amo_system_calls::{Mode, SystemCalls};
use std::io;

/// The system's number of the error that nothing has a name.
const NO_SUCH_FILE: i32 = 2;

/// Opens a file or a folder that must be there.
///
/// # Errors
/// The system's error. It is of the kind `NotFound` if nothing has this name.
pub fn open_existing<S: SystemCalls>(
    system: &mut S,
    path: &str,
    mode: Mode,
) -> io::Result<S::Handle>
    ensures done { OnOk result (Makes (S.has_made system.old) (S.has_made system.new) (Did (Open path.now mode) ∷ [])) }
    ensures path { IfOk result (λ handle. S.opened_by handle path.now) }
    ensures fails { OnErr result (MakesSome (S.has_made system.old) (S.has_made system.new) (Open path.now mode ∷ [])) }
{
    match system.open(path, mode)? {
        Some(handle) => Ok(handle),
        None => Err(io::Error::from_raw_os_error(NO_SUCH_FILE)),
    }
}

/// Returns the content of a file that must be there.
///
/// # Errors
/// The system's error, also one for want of memory. It is of the kind `NotFound` if nothing has
/// this name.
pub fn read_existing<S: SystemCalls>(system: &mut S, path: &str) -> io::Result<Vec<u8>>
    ensures done { OnOk result (Makes (S.has_made system.old) (S.has_made system.new) (Did (ReadFile path.now) ∷ [])) }
    ensures fails { OnErr result (MakesSome (S.has_made system.old) (S.has_made system.new) (ReadFile path.now ∷ [])) }
{
    match system.read_file(path)? {
        Some(bytes) => Ok(bytes),
        None => Err(io::Error::from_raw_os_error(NO_SUCH_FILE)),
    }
}

/// Syncs the folder of this path: from then on a power cut leaves the names that it has now.
///
/// # Errors
/// The system's error.
pub fn sync_folder<S: SystemCalls>(system: &mut S, path: &str) -> io::Result<()>
    ensures done { OnOk result (Makes (S.has_made system.old) (S.has_made system.new) (Did (Open path.now ToRead) ∷ Did (Sync path.now) ∷ [])) }
    ensures fails { OnErr result (MakesSome (S.has_made system.old) (S.has_made system.new) (Open path.now ToRead ∷ Sync path.now ∷ [])) }
{
    let folder = open_existing(system, path, Mode::Read)?;
    system.sync(&folder)
}

/// Returns the bytes of a file, all of them on the disk. It syncs the file that it has read, also
/// if another has come into its place meanwhile.
///
/// # Errors
/// The system's error, also one for want of memory.
pub fn read_synced<S: SystemCalls>(system: &mut S, path: &str) -> io::Result<Vec<u8>>
    ensures done { OnOk result (Makes (S.has_made system.old) (S.has_made system.new) (Did (Open path.now ToRead) ∷ Did (ReadFrom path.now 0) ∷ Did (Sync path.now) ∷ [])) }
    ensures fails { OnErr result (MakesSome (S.has_made system.old) (S.has_made system.new) (Open path.now ToRead ∷ ReadFrom path.now 0 ∷ Sync path.now ∷ [])) }
{
    let source = open_existing(system, path, Mode::Read)?;
    let bytes = system.read_from(&source, 0)?;
    system.sync(&source)?;
    Ok(bytes)
}

/// Replaces a file by one with these bytes, or makes it if it is missing. It makes the new file
/// whole under the name `beside`, and renames it. So a reader that opens the file meanwhile finds
/// the old or the new one. The bytes are on the disk before they have the name, and the name before
/// this call returns. A power cut then leaves the old file or the new one.
///
/// # Errors
/// The system's error. The name `beside` may then be left, or the file replaced and not synced.
pub fn replace_file<S: SystemCalls>(
    system: &mut S,
    folder: &str,
    path: &str,
    beside: &str,
    bytes: &[u8],
) -> io::Result<()>
    ensures done { OnOk result (Makes (S.has_made system.old) (S.has_made system.new) (Did (Open beside.now MakeOrEmpty) ∷ Did (Write beside.now bytes.now) ∷ Did (Sync beside.now) ∷ Did (Rename beside.now path.now) ∷ Did (Open folder.now ToRead) ∷ Did (Sync folder.now) ∷ [])) }
    ensures fails { OnErr result (MakesSome (S.has_made system.old) (S.has_made system.new) (Open beside.now MakeOrEmpty ∷ Write beside.now bytes.now ∷ Sync beside.now ∷ Rename beside.now path.now ∷ Open folder.now ToRead ∷ Sync folder.now ∷ [])) }
{
    let mut synced = open_existing(system, beside, Mode::MakeOrEmpty)?;
    system.write_all(&mut synced, bytes)?;
    system.sync(&synced)?;
    system.rename(beside, path)?;
    sync_folder(system, folder)
}

/// Replaces a file as [`replace_file`] does, and syncs nothing: after a power cut the file may have
/// any content.
///
/// # Errors
/// The system's error. The name `beside` may then be left.
pub fn replace_unsynced<S: SystemCalls>(
    system: &mut S,
    path: &str,
    beside: &str,
    bytes: &[u8],
) -> io::Result<()>
    ensures done { OnOk result (Makes (S.has_made system.old) (S.has_made system.new) (Did (Open beside.now MakeOrEmpty) ∷ Did (Write beside.now bytes.now) ∷ Did (Rename beside.now path.now) ∷ [])) }
    ensures fails { OnErr result (MakesSome (S.has_made system.old) (S.has_made system.new) (Open beside.now MakeOrEmpty ∷ Write beside.now bytes.now ∷ Rename beside.now path.now ∷ [])) }
{
    let mut unsynced = open_existing(system, beside, Mode::MakeOrEmpty)?;
    system.write_all(&mut unsynced, bytes)?;
    system.rename(beside, path)
}

/// Makes a file with these bytes, for its owner alone, and syncs it. The folder isn't synced.
///
/// # Errors
/// `AlreadyExists` if something has this name, else the system's.
pub fn make_file<S: SystemCalls>(system: &mut S, path: &str, bytes: &[u8]) -> io::Result<()>
    ensures done { OnOk result (Makes (S.has_made system.old) (S.has_made system.new) (Did (Open path.now MakeNew) ∷ Did (Write path.now bytes.now) ∷ Did (Sync path.now) ∷ [])) }
    ensures fails { OnErr result (MakesSome (S.has_made system.old) (S.has_made system.new) (Open path.now MakeNew ∷ Write path.now bytes.now ∷ Sync path.now ∷ [])) }
{
    let mut file = open_existing(system, path, Mode::MakeNew)?;
    system.write_all(&mut file, bytes)?;
    system.sync(&file)
}

/// Makes a file with these bytes, and puts it in the place of what has this name. It makes the file
/// whole and synced under the name `fresh`. The folder isn't synced.
///
/// # Errors
/// The system's error. The name `fresh` may then be left.
pub fn make_and_rename<S: SystemCalls>(
    system: &mut S,
    path: &str,
    fresh: &str,
    bytes: &[u8],
) -> io::Result<()>
    ensures done { OnOk result (Makes (S.has_made system.old) (S.has_made system.new) (Did (Open fresh.now MakeNew) ∷ Did (Write fresh.now bytes.now) ∷ Did (Sync fresh.now) ∷ Did (Rename fresh.now path.now) ∷ [])) }
    ensures fails { OnErr result (MakesSome (S.has_made system.old) (S.has_made system.new) (Open fresh.now MakeNew ∷ Write fresh.now bytes.now ∷ Sync fresh.now ∷ Rename fresh.now path.now ∷ [])) }
{
    make_file(system, fresh, bytes)?;
    system.rename(fresh, path)
}

/// Makes a file with these bytes, unless something has this name. It makes the file whole and
/// synced under the name `beside`, gives it its name by a link, and removes the name `beside`. So
/// nobody finds a part of it, and nothing is ever replaced. The folder isn't synced. Returns true
/// if the file was made.
///
/// # Errors
/// The system's error. The name `beside` may then be left.
pub fn make_if_missing<S: SystemCalls>(
    system: &mut S,
    path: &str,
    beside: &str,
    bytes: &[u8],
) -> io::Result<bool>
    ensures made { IfOk result (λ made. made ≡ true → Makes (S.has_made system.old) (S.has_made system.new) (Did (Open beside.now MakeNew) ∷ Did (Write beside.now bytes.now) ∷ Did (Sync beside.now) ∷ Did (Link beside.now path.now) ∷ Did (Remove beside.now) ∷ [])) }
    ensures taken { IfOk result (λ made. made ≡ false → Makes (S.has_made system.old) (S.has_made system.new) (Did (Open beside.now MakeNew) ∷ Did (Write beside.now bytes.now) ∷ Did (Sync beside.now) ∷ Missed (Link beside.now path.now) ∷ Did (Remove beside.now) ∷ [])) }
    ensures fails { OnErr result ((past : List Made) → S.has_made system.old past → HasStopped (S.has_made system.new) (Open beside.now MakeNew ∷ Write beside.now bytes.now ∷ Sync beside.now ∷ Link beside.now path.now ∷ Remove beside.now ∷ []) past ⊎ S.has_made system.new (after_all (Did (Open beside.now MakeNew) ∷ Did (Write beside.now bytes.now) ∷ Did (Sync beside.now) ∷ Missed (Link beside.now path.now) ∷ Fell (Remove beside.now) ∷ []) past)) }
{
    make_file(system, beside, bytes)?;
    let made = system.link(beside, path)?;
    system.remove(beside)?;
    Ok(made)
}
