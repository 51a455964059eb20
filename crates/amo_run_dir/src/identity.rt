//! The identity of a run's folder: its id, and the files that were made with it.
ghost use Rattle.std.specs.Prelude.{◌≡◌, ◌∷◌, [], true, false, IfOk, IfSome, IfNone, OnOk, OnErr};
ghost use Rattle.amo_system_calls.specs.Calls.{Did, Missed, Look, ReadFile, Makes, MakesSome};
ghost use Rattle.amo_run_faults.specs.declared.layout.Item.TheVariants.{Id, Forgotten};
ghost use Rattle.amo_run_faults.specs.Names.{path_in};

use crate::files::{bytes_of, path_of};
use amo_journal::Checksum;
use amo_run_faults::{Fault, Item, Setting, had, is_id};
use amo_system_calls::SystemCalls;

/// How a run's folder was made.
#[derive(Clone, Copy, PartialEq, Eq)]
pub enum Age {
    /// With an id and all journals: a file that is missing is refused.
    Now,
    /// By version 0.1.0: a journal that is missing is empty, and nothing is written there.
    Old,
}

/// Returns the folder's id, if it has one: 32 hex digits.
///
/// # Errors
/// `Refused` if it is malformed.
fn id_of<S: SystemCalls>(system: &mut S, setting: &Setting<'_>) -> Result<Option<Vec<u8>>, Fault>
    ensures found { IfOk result (λ id. IfSome id (λ _. Makes (S.has_made system.old) (S.has_made system.new) (Did (ReadFile (path_in setting.now.run.now Id)) ∷ []))) }
    ensures missing { IfOk result (λ id. IfNone id (Makes (S.has_made system.old) (S.has_made system.new) (Missed (ReadFile (path_in setting.now.run.now Id)) ∷ []))) }
    ensures fails { OnErr result (MakesSome (S.has_made system.old) (S.has_made system.new) (ReadFile (path_in setting.now.run.now Id) ∷ [])) }
{
    let Some(bytes) = bytes_of(system, setting, Item::Id)? else {
        return Ok(None);
    };
    let [text @ .., b'\n'] = bytes.as_slice() else {
        return Err(Fault::Refused(Item::Id));
    };
    if !is_id(text) {
        return Err(Fault::Refused(Item::Id));
    }
    Ok(Some(text.to_vec(system.alloc())?))
}

/// Returns true if the folder has an id.
///
/// # Errors
/// `Refused` if it is malformed, `OtherId` if another run was asked for.
pub fn has_id<S: SystemCalls>(system: &mut S, setting: &Setting<'_>) -> Result<bool, Fault>
    ensures found { IfOk result (λ has. has ≡ true → Makes (S.has_made system.old) (S.has_made system.new) (Did (ReadFile (path_in setting.now.run.now Id)) ∷ [])) }
    ensures missing { IfOk result (λ has. has ≡ false → Makes (S.has_made system.old) (S.has_made system.new) (Missed (ReadFile (path_in setting.now.run.now Id)) ∷ [])) }
    ensures fails { OnErr result (MakesSome (S.has_made system.old) (S.has_made system.new) (ReadFile (path_in setting.now.run.now Id) ∷ [])) }
{
    let Some(text) = id_of(system, setting)? else {
        return Ok(false);
    };
    match setting.id {
        Some(asked) if asked.as_bytes() != text.as_slice() => Err(Fault::OtherId),
        _ => Ok(true),
    }
}

/// Returns the checksum that stands before the first append of a journal of the run.
///
/// # Errors
/// `NoId` if the folder has no id, `Refused` if it is malformed.
pub fn first_checksum<S: SystemCalls>(
    system: &mut S,
    setting: &Setting<'_>,
    item: Item,
) -> Result<Checksum, Fault>
    ensures done { OnOk result (Makes (S.has_made system.old) (S.has_made system.new) (Did (ReadFile (path_in setting.now.run.now Id)) ∷ [])) }
    ensures fails { OnErr result (MakesSome (S.has_made system.old) (S.has_made system.new) (ReadFile (path_in setting.now.run.now Id) ∷ [])) }
{
    let Some(id) = id_of(system, setting)? else {
        return Err(Fault::NoId);
    };
    let name = format!(in system.alloc(); "{item}")?;
    Ok(Checksum::first(&id, name.as_bytes()))
}

/// Refuses a folder that has no id, or another than was asked for.
///
/// # Errors
/// As [`has_id`], and `OldRun`, `NoId` or `Missing` if it has none.
pub fn check_id<S: SystemCalls>(system: &mut S, setting: &Setting<'_>) -> Result<(), Fault>
    ensures done { OnOk result (Makes (S.has_made system.old) (S.has_made system.new) (Did (ReadFile (path_in setting.now.run.now Id)) ∷ [])) }
{
    if has_id(system, setting)? {
        return Ok(());
    }
    Err(no_id(system, setting)?)
}

/// Returns the fault of a folder that has no id: it was made by version 0.1.0, or has lost its id,
/// or isn't a run's.
///
/// # Errors
/// `Read` if its record can't be read, and `Memory`.
pub fn no_id<S: SystemCalls>(system: &mut S, setting: &Setting<'_>) -> Result<Fault, Fault> {
    match bytes_of(system, setting, Item::Record)? {
        Some(bytes) if bytes.starts_with(b"amo-run 2\n") => Ok(Fault::Missing(Item::Id)),
        Some(_) => Ok(Fault::OldRun),
        None => Ok(Fault::NoId),
    }
}

/// Refuses a folder that isn't the run's, or whose run was given up.
///
/// # Errors
/// As [`check_id`], and `Forgotten`.
pub fn check_kept<S: SystemCalls>(system: &mut S, setting: &Setting<'_>) -> Result<(), Fault>
    ensures done { OnOk result (Makes (S.has_made system.old) (S.has_made system.new) (Did (ReadFile (path_in setting.now.run.now Id)) ∷ Missed (Look (path_in setting.now.run.now Forgotten)) ∷ [])) }
{
    check_id(system, setting)?;
    match len_of(system, setting, Item::Forgotten)? {
        Some(_) => Err(Fault::Forgotten),
        None => Ok(()),
    }
}

/// Returns how many bytes a file of the run has, if there is one.
///
/// # Errors
/// `Read` if the system can't look the file up, and `Memory`.
pub fn len_of<S: SystemCalls>(
    system: &mut S,
    setting: &Setting<'_>,
    item: Item,
) -> Result<Option<u64>, Fault>
    ensures found { IfOk result (λ len. IfSome len (λ _. Makes (S.has_made system.old) (S.has_made system.new) (Did (Look (path_in setting.now.run.now item)) ∷ []))) }
    ensures missing { IfOk result (λ len. IfNone len (Makes (S.has_made system.old) (S.has_made system.new) (Missed (Look (path_in setting.now.run.now item)) ∷ []))) }
    ensures fails { OnErr result (MakesSome (S.has_made system.old) (S.has_made system.new) (Look (path_in setting.now.run.now item) ∷ [])) }
{
    let path = path_of(system.alloc(), setting, item)?;
    match had(item, system.look(path.as_str(), true))? {
        Some(found) => Ok(Some(found.len)),
        None => Ok(None),
    }
}
