//! Counting of lines by status.
ghost use Rattle.std.specs.Prelude.{◌≡◌, ◌+◌, length};
ghost use Rattle.amo_status.specs.Counts.{count_of, counts_of};

use crate::count::Counts;
use crate::standing::LineStatus;
use crate::state::{State, is};

/// Returns the number of these lines, and the number of lines of each status.
pub fn counts(standings: &[LineStatus]) -> Counts
    ensures exact { result ≡ counts_of standings.now }
    // Each line is counted once.
    ensures all { result.done + result.failed + result.doubt + result.untouched + result.running + result.open ≡ length standings.now }
{
    Counts {
        lines: standings.len() as u64,
        done: count_of(State::Done, standings),
        failed: count_of(State::Failed, standings),
        doubt: count_of(State::Doubt, standings),
        untouched: count_of(State::Untouched, standings),
        running: count_of(State::Running, standings),
        open: count_of(State::Open, standings),
    }
}

/// Returns the number of lines of this status.
fn count_of(kind: State, standings: &[LineStatus]) -> u64
    ensures { result ≡ count_of kind standings.now }
{
    standings.iter().filter(|s| is(kind, s.state)).count() as u64
}
