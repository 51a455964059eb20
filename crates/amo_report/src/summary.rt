//! The part of a line on a whole run, and the least number over many runs.
ghost use Rattle.std.specs.Prelude.{◌≡◌, ◌++◌, OnOk, string_bytes};
ghost use Rattle.amo_render.specs.Least.{lesser};
ghost use Rattle.amo_report.specs.Summary.{counts_part, verdict_part, least_line};

use amo_kk::Event;
use amo_render::{count_claims, count_performances};
use amo_world::Verdict;
use std::alloc::AllocError;

/// Appends how much was claimed and performed.
#[tactic(auto, unfolding(crate::specs::Summary::counts_part))]
pub(crate) fn push_counts(out: &mut String, history: &[Event]) -> Result<(), AllocError>
    ensures { OnOk result (string_bytes out.new ≡ string_bytes out.old ++ counts_part history.now) }
{
    let claims = count_claims(history);
    let dones = count_performances(history);
    write!(out, " claimed {claims} done {dones}")
}

/// Appends the judge's verdict, after a space.
#[tactic(auto, unfolding(crate::specs::Summary::verdict_part))]
pub(crate) fn push_verdict(out: &mut String, verdict: Verdict) -> Result<(), AllocError>
    ensures { OnOk result (string_bytes out.new ≡ string_bytes out.old ++ verdict_part verdict) }
{
    match verdict {
        Verdict::Lawful => write!(out, " lawful"),
        Verdict::FirstBad(place) => write!(out, " bad {place}"),
    }
}

/// Returns the lesser of a number and another, if there is another.
pub(crate) fn lesser(number: usize, other: Option<usize>) -> usize
    ensures { result ≡ lesser number other }
{
    match other {
        None => number,
        Some(other) => number.min(other),
    }
}

/// Appends the line of the least number of done jobs, if there is one.
#[tactic(auto, unfolding(crate::specs::Summary::least_line))]
pub(crate) fn push_least(out: &mut String, least: Option<usize>) -> Result<(), AllocError>
    ensures { OnOk result (string_bytes out.new ≡ string_bytes out.old ++ least_line least) }
{
    match least {
        None => Ok(()),
        Some(dones) => writeln!(out, "least {dones}"),
    }
}
