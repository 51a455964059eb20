//! The words of an attempt in JSON.
ghost use Rattle.std.specs.Prelude.{◌≡◌, string_bytes, IfOk};
ghost use Rattle.amo_status.specs.Ages.{time_json};
ghost use Rattle.amo_watch.specs.Lines.{code_json, outcome_word, round_json, watch_word};

use amo_run_log::Outcome;
use amo_status::State;
use std::alloc::{AllocError, Global};

/// Returns the word of an outcome.
pub(crate) fn outcome_word(outcome: Option<Outcome>) -> &'static str
    ensures { result.now ≡ outcome_word outcome }
{
    match outcome {
        None => "pending",
        Some(Outcome::Done { .. }) => "done",
        Some(Outcome::Doubt { .. }) => "doubt",
        Some(Outcome::Unbegun) => "unbegun",
        Some(Outcome::Untouched { .. }) => "untouched",
    }
}

/// Returns the word of a state. A pending attempt is running or in doubt.
pub(crate) fn watch_word(state: State) -> &'static str
    ensures { result.now ≡ watch_word state }
{
    match state {
        State::Open => "open",
        State::Done => "done",
        State::Failed => "failed",
        State::Doubt => "doubt",
        State::Untouched => "untouched",
        State::Running => "pending",
    }
}

/// Returns the code of an outcome as JSON: null if it has none.
pub(crate) fn code_json(alloc: Global, outcome: Option<Outcome>) -> Result<String, AllocError>
    ensures { IfOk result (λ text. string_bytes text ≡ code_json outcome) }
{
    match outcome {
        Some(Outcome::Done { code, .. }) => format!(in alloc; "{code}"),
        Some(Outcome::Untouched { code, .. }) => format!(in alloc; "{code}"),
        Some(Outcome::Doubt { .. } | Outcome::Unbegun) | None => String::from_str(alloc, "null"),
    }
}

/// Returns a time as JSON: null if it is not known.
pub(crate) fn time_json(alloc: Global, time: u64) -> Result<String, AllocError>
    ensures { IfOk result (λ text. string_bytes text ≡ time_json time) }
{
    if time == 0 {
        return String::from_str(alloc, "null");
    }
    format!(in alloc; "{time}")
}

/// Returns the number of a round, or of its workers, as JSON: null before the first round.
pub(crate) fn round_json(alloc: Global, round: u64) -> Result<String, AllocError>
    ensures { IfOk result (λ text. string_bytes text ≡ round_json round) }
{
    if round == 0 {
        return String::from_str(alloc, "null");
    }
    format!(in alloc; "{round}")
}
