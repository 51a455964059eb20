//! Reading each of many texts.
ghost use Rattle.std.specs.Prelude.{◌≡◌, ℕ, List, Option, Some, IfOk, IfErr, map};
ghost use Rattle.amo_run_log.specs.Faults.{SaysNothing};
ghost use Rattle.amo_run_log.specs.Numbers.{read_all};

use crate::fault::Fault;
use std::alloc::Global;

/// A value that a text may say.
pub(crate) trait FromText: Copy {
    /// The value that a text says, if it says one.
    ghost said: { List ℕ → Option Self };

    /// Returns the value that these bytes say, if they say one.
    fn from_text(text: &[u8]) -> Option<Self>
        ensures exact { result ≡ said text.now };
}

/// Reads each text. The first that says nothing is refused, by its number.
pub(crate) fn read_each<T: FromText>(alloc: Global, texts: &[Vec<u8>]) -> Result<Vec<T>, Fault>
    ensures exact { IfOk result (λ found. read_all T.said (map (λ text. text.items) texts.now) ≡ Some found.items) }
    ensures refused { IfErr result (SaysNothing T.said (map (λ text. text.items) texts.now)) }
{
    let mut found = Vec::new(alloc);
    for text in texts {
        let Some(said) = T::from_text(text) else {
            return Err(Fault::Refused(found.len() + 1));
        };
        found.push(said)?;
    }
    Ok(found)
}
