//! Writing to standard output.
ghost use Rattle.std.specs.Prelude.{◌∷◌, [], OnOk, OnErr};
ghost use Rattle.amo_system_calls.specs.Calls.{Did, Fell, Print, Makes};

use amo_run_faults::{Fault, Item, written};
use amo_system_calls::SystemCalls;

/// Writes a text to standard output, all of it.
///
/// # Errors
/// `Write` if it can't be written.
pub fn print<S: SystemCalls>(system: &mut S, text: &[u8]) -> Result<(), Fault>
    ensures done { OnOk result (Makes (S.has_made system.old) (S.has_made system.new) (Did (Print text.now) ∷ [])) }
    ensures fails { OnErr result (Makes (S.has_made system.old) (S.has_made system.new) (Fell (Print text.now) ∷ [])) }
{
    written(Item::Output, system.print(text))
}
