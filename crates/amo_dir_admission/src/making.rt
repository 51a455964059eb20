//! Making of a run's folder that isn't there: whole under another name, and then renamed.
ghost use Rattle.std.specs.Prelude.{◌≡◌, ◌∷◌, [], false, IfErr, OnErr, OnOk};
ghost use Rattle.amo_dir_admission.specs.declared.model.Purpose.{Purpose};
ghost use Rattle.amo_dir_admission.specs.Files.{files_after, first_bytes};
ghost use Rattle.amo_dir_admission.specs.Halting.{Halts};
ghost use Rattle.amo_dir_admission.specs.Phase.{Beside, Fails, Fills, Looks, Makes};

use crate::halt::Halt;
use crate::host::{DoorHost, Failed};
use crate::model::{Place, RunFile};
use amo_params::MAX_WORKERS;

/// Makes a run's folder that isn't there: whole under another name, and then renamed, so that
/// nobody finds a part of it. If another process makes one meanwhile, that one stays.
///
/// # Errors
/// `Host` if a call failed. Nothing is left then, unless that can't be removed either.
pub(crate) fn make_beside<H: DoorHost>(host: &mut H) -> Result<(), Halt>
    requires makes { H.stands host.old (Makes false) }
    ensures looks { OnOk result (H.stands host.new (Looks (Purpose.Make false))) }
    ensures halts { IfErr result (λ halt. Halts (H.stands host.new) halt) }
{
    if host.draw_name(Place::Above).is_err() {
        return Err(Halt::Host);
    }
    match make_whole(host) {
        Ok(()) => Ok(()),
        Err(_) => give_up(host),
    }
}

/// Removes what was made of the folder. Then the one of another process is taken, if there is one.
///
/// # Errors
/// `Host` if nobody has made one, or the call failed.
fn give_up<H: DoorHost>(host: &mut H) -> Result<(), Halt>
    requires fails { H.stands host.old Fails }
    ensures looks { OnOk result (H.stands host.new (Looks (Purpose.Make false))) }
    ensures halts { IfErr result (λ halt. Halts (H.stands host.new) halt) }
{
    host.remove_beside();
    match host.is_there() {
        Ok(true) => Ok(()),
        Ok(false) | Err(_) => Err(Halt::Host),
    }
}

/// Makes the folder under another name, syncs it, and renames it.
///
/// # Errors
/// `Failed` if a call failed.
fn make_whole<H: DoorHost>(host: &mut H) -> Result<(), Failed>
    requires beside { H.stands host.old Beside }
    ensures looks { OnOk result (H.stands host.new (Looks (Purpose.Make false))) }
    ensures fails { OnErr result (H.stands host.new Fails) }
{
    host.make_beside()?;
    make_first(host, RunFile::Round)?;
    make_first(host, RunFile::Answers)?;
    for p in 0..MAX_WORKERS as u64 {
        make_first(host, RunFile::Journal(p + 1))?;
    }
    finish(host)
}

/// Makes this file, the next one.
///
/// # Errors
/// `Failed` if the call failed.
fn make_first<H: DoorHost>(host: &mut H, file: RunFile) -> Result<(), Failed>
    requires left { H.stands host.old (Fills (file ∷ files_after file)) }
    ensures made { OnOk result (H.stands host.new (Fills (files_after file))) }
    ensures fails { OnErr result (H.stands host.new Fails) }
{
    host.make_file(file, first_bytes(file))
}

/// Makes the id, once all other files are made, syncs the folder and renames it.
///
/// # Errors
/// `Failed` if a call failed.
fn finish<H: DoorHost>(host: &mut H) -> Result<(), Failed>
    requires made { H.stands host.old (Fills []) }
    ensures looks { OnOk result (H.stands host.new (Looks (Purpose.Make false))) }
    ensures fails { OnErr result (H.stands host.new Fails) }
{
    let id = host.draw_id()?;
    host.make_file(RunFile::Id, &id)?;
    host.sync_beside()?;
    host.rename()
}

/// Returns the bytes with which a file is made: a closed commit byte, and of `lock.round` none.
pub(crate) fn first_bytes(file: RunFile) -> &'static [u8]
    ensures { result.now ≡ first_bytes file }
{
    match file {
        RunFile::Round => b"",
        RunFile::Answers | RunFile::Journal(_) | RunFile::Id | RunFile::Forgotten => b"-",
    }
}
