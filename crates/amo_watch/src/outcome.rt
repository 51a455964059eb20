//! Code and time of an outcome.
ghost use Rattle.std.specs.Prelude.{◌≡◌};
ghost use Rattle.amo_watch.specs.Changes.{code_in, time_in};

use amo_run_log::Outcome;

/// Returns the code with which a command ended; 0 if no code is recorded.
pub(crate) fn code_in(outcome: Option<Outcome>) -> u8
    ensures { result ≡ code_in outcome }
{
    match outcome {
        Some(Outcome::Done { code, .. } | Outcome::Untouched { code, .. }) => code,
        Some(Outcome::Doubt { .. } | Outcome::Unbegun) | None => 0,
    }
}

/// Returns when the attempt ended, or 0 if that is not known.
pub(crate) fn time_in(outcome: Option<Outcome>) -> u64
    ensures { result ≡ time_in outcome }
{
    match outcome {
        Some(Outcome::Done { time, .. } | Outcome::Untouched { time, .. }) => time,
        Some(Outcome::Doubt { time }) => time,
        Some(Outcome::Unbegun) | None => 0,
    }
}
