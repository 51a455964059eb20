//! How long ago an attempt ended.
ghost use Rattle.std.specs.Prelude.{◌≡◌, string_bytes, IfOk};
ghost use Rattle.amo_status.specs.Ages.{age_json, age_of, age_word, time_json};

use std::alloc::{AllocError, Global};

/// How long ago an attempt ended, by the time in its record and by a clock.
#[derive(Clone, Copy, Debug, PartialEq, Eq)]
pub(crate) enum Age {
    /// The record has no time.
    Unknown,
    /// The time in the record is later than the clock's.
    Ahead,
    /// The number of seconds.
    Seconds(u64),
}

/// Returns how long ago it ended, by a clock that shows `now`. Both times are in seconds since
/// 1970, and 0 stands for an end that is not known.
pub(crate) fn age_of(now: u64, ended: u64) -> Age
    ensures { result ≡ age_of now ended }
{
    if ended == 0 {
        return Age::Unknown;
    }
    if now < ended {
        return Age::Ahead;
    }
    Age::Seconds(now - ended)
}

/// Returns the age as a word.
pub(crate) fn age_word(alloc: Global, age: Age) -> Result<String, AllocError>
    ensures { IfOk result (λ text. string_bytes text ≡ age_word age) }
{
    match age {
        Age::Unknown => String::from_str(alloc, "unknown"),
        Age::Ahead => String::from_str(alloc, "ahead"),
        Age::Seconds(seconds) => format!(in alloc; "{seconds}"),
    }
}

/// Returns the age as JSON: null unless it is a number of seconds.
pub(crate) fn age_json(alloc: Global, age: Age) -> Result<String, AllocError>
    ensures { IfOk result (λ text. string_bytes text ≡ age_json age) }
{
    match age {
        Age::Unknown | Age::Ahead => String::from_str(alloc, "null"),
        Age::Seconds(seconds) => format!(in alloc; "{seconds}"),
    }
}

/// Returns a time as JSON: null if it is not known.
pub(crate) fn time_json(alloc: Global, time: u64) -> Result<String, AllocError>
    ensures { IfOk result (λ text. string_bytes text ≡ time_json time) }
{
    if time == 0 {
        return String::from_str(alloc, "null");
    }
    format!(in alloc; "{time}")
}
