//! Counts of the jobs in a history.
ghost use Rattle.std.specs.Prelude.{◌≡◌, ◌<◌, ◌^◌, length};
ghost use Rattle.amo_sets.specs.Sets.{has};
ghost use Rattle.amo_kk.specs.Run.{claimed_jobs, done_jobs};

use amo_kk::Event;

/// Returns true if job j was claimed.
pub(crate) fn has_claim(history: &[Event], j: u32) -> bool
    ensures { result ≡ has (claimed_jobs history.now) j }
{
    for event in history {
        if let Event::Claimed(_, i) = *event {
            if i == j {
                return true;
            }
        }
    }
    false
}

/// How many jobs were claimed, and how many were done.
#[derive(Clone, Copy)]
pub(crate) struct Tally {
    pub(crate) claimed: u32,
    pub(crate) performed: u32,
}

/// Counts the claims and the performances.
pub(crate) fn count(history: &[Event]) -> Tally
    requires { length history.now < 2 ^ 32 }
    ensures claimed { result.claimed ≡ length (claimed_jobs history.now) }
    ensures performed { result.performed ≡ length (done_jobs history.now) }
{
    let mut claimed = 0;
    let mut performed = 0;
    for event in history {
        match *event {
            Event::Claimed(_, _) => claimed += 1,
            Event::Done(_, _) => performed += 1,
            Event::Ended(_) | Event::Halted(_) | Event::Left(_) => {}
        }
    }
    Tally { claimed, performed }
}
