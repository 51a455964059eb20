//! The file of the last round.
ghost use Rattle.std.specs.Prelude.{◌∷◌, [], IfOk, IfSome, IfNone};
ghost use Rattle.amo_system_calls.specs.Calls.{Did, Missed, ReadFile, Makes};
ghost use Rattle.amo_run_faults.specs.declared.layout.Item.TheVariants.{Id, Record};
ghost use Rattle.amo_run_faults.specs.Names.{path_in};

use crate::files::{bytes_of, replaced};
use crate::identity::first_checksum;
use amo_run_faults::{Fault, Item, Setting};
use amo_run_files::RoundFile;
use amo_system_calls::SystemCalls;

/// Returns the file of the last round, if there is one.
///
/// # Errors
/// `Refused` if it is damaged, `NoId` if the folder has no id.
pub fn record_of<S: SystemCalls>(
    system: &mut S,
    setting: &Setting<'_>,
) -> Result<Option<RoundFile>, Fault>
    ensures found { IfOk result (λ last. IfSome last (λ _. Makes (S.has_made system.old) (S.has_made system.new) (Did (ReadFile (path_in setting.now.run.now Record)) ∷ Did (ReadFile (path_in setting.now.run.now Id)) ∷ []))) }
    ensures missing { IfOk result (λ last. IfNone last (Makes (S.has_made system.old) (S.has_made system.new) (Missed (ReadFile (path_in setting.now.run.now Record)) ∷ []))) }
{
    let Some(bytes) = bytes_of(system, setting, Item::Record)? else {
        return Ok(None);
    };
    let first = first_checksum(system, setting, Item::Record)?;
    match RoundFile::read(system.alloc(), &first, &bytes)? {
        Some(record) => Ok(Some(record)),
        None => Err(Fault::Refused(Item::Record)),
    }
}

/// Puts the file of a round in the place of that of the last one. It is on the disk when this
/// returns.
///
/// # Errors
/// `Write` for the system's, `NoId` if the folder has no id.
pub fn replace_record<S: SystemCalls>(
    system: &mut S,
    setting: &Setting<'_>,
    file: &RoundFile,
) -> Result<(), Fault> {
    let first = first_checksum(system, setting, Item::Record)?;
    let text = file.print(system.alloc(), &first)?;
    replaced(system, setting, Item::Record, &text)
}
