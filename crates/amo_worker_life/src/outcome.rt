//! How an outcome stands in a journal.
ghost use Rattle.std.specs.Prelude.{◌≡◌};
ghost use Rattle.amo_host.specs.Protocol.{outcome_at, outcome_entry};

use amo_driver::JobResult;
use amo_run_log::{Entry, Outcome};

/// Returns the entry of the outcome of the attempt of this serial number, which came at this time,
/// in seconds since 1970.
pub(crate) fn outcome_entry(serial: u64, time: u64, became: JobResult) -> Entry
    ensures { result ≡ outcome_entry serial time became }
{
    Entry::Answer {
        serial,
        answer: outcome_at(time, became),
    }
}

fn outcome_at(time: u64, became: JobResult) -> Outcome
    ensures { result ≡ outcome_at time became }
{
    match became {
        JobResult::Done(code) => Outcome::Done { code, time },
        JobResult::Doubt => Outcome::Doubt { time },
        JobResult::Unbegun => Outcome::Unbegun,
        JobResult::Untouched(code) => Outcome::Untouched { code, time },
    }
}
