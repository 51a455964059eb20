//! The id of the machine's boot.
ghost use Rattle.std.specs.Prelude.{◌∷◌, [], OnOk, OnErr};
ghost use Rattle.amo_system_calls.specs.Calls.{Did, ReadFile, Makes, MakesSome};

use amo_fs::read_existing;
use amo_run_faults::{Fault, Item, had};
use amo_system_calls::SystemCalls;

/// The longest id of a boot.
const LONGEST_BOOT: usize = 200;

/// Returns the id that the machine has had since it was started, which the file of this path has:
/// one line, without its end.
///
/// # Errors
/// `Refused` if it isn't one line of 1 to 200 bytes, and `Read`.
pub(crate) fn boot_id<S: SystemCalls>(system: &mut S, path: &str) -> Result<Vec<u8>, Fault>
    ensures done { OnOk result (Makes (S.has_made system.old) (S.has_made system.new) (Did (ReadFile path.now) ∷ [])) }
    ensures fails { OnErr result (MakesSome (S.has_made system.old) (S.has_made system.new) (ReadFile path.now ∷ [])) }
{
    let mut bytes = had(Item::Boot, read_existing(system, path))?;
    if bytes.last() == Some(&b'\n') {
        bytes.pop();
    }
    if bytes.is_empty() || bytes.len() > LONGEST_BOOT || bytes.contains(&b'\n') {
        return Err(Fault::Refused(Item::Boot));
    }
    Ok(bytes)
}
