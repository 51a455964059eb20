//! Counting of events of a kind in a history.
ghost use Rattle.std.specs.Prelude.{◌≡◌, length, count_by};
ghost use Rattle.amo_kk.specs.Run.{claimed_jobs, done_jobs};
ghost use Rattle.amo_render.specs.Happened.{is_end};

use amo_kk::Event;

/// Returns how many claims the history has.
#[tactic(auto, using(crate::proofs::Counted::claims_counted))]
pub fn count_claims(history: &[Event]) -> usize
    ensures { result ≡ length (claimed_jobs history.now) }
{
    history
        .iter()
        .filter(|event| matches!(event, Event::Claimed(_, _)))
        .count()
}

/// Returns how many performances the history has.
#[tactic(auto, using(crate::proofs::Counted::dones_counted))]
pub fn count_performances(history: &[Event]) -> usize
    ensures { result ≡ length (done_jobs history.now) }
{
    history
        .iter()
        .filter(|event| matches!(event, Event::Done(_, _)))
        .count()
}

/// Returns how many ends the history has.
pub fn count_ends(history: &[Event]) -> usize
    ensures { result ≡ count_by is_end history.now }
{
    history
        .iter()
        .filter(|event| matches!(event, Event::Ended(_)))
        .count()
}
