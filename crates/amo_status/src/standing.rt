//! The status of each line.
ghost use Rattle.std.specs.Prelude.{◌≡◌, ◌+◌, ◌<◌, ℕ, length, map, slice_index_or, IfOk};
ghost use Rattle.amo_run_log.specs.Open.{is_open, numbers};
ghost use Rattle.amo_status.specs.declared.state.State.TheVariants.{Open};
ghost use Rattle.amo_status.specs.Deciding.{decided_from, decided_of};
ghost use Rattle.amo_status.specs.Standings.{closing, closing_in, if_closing, open_standing, standing_of, standings_of};
ghost use Rattle.amo_status.specs.States.{is};

use crate::run_log::RunLog;
use crate::state::{State, ended_at, is, state_of};
use amo_run_log::Attempt;
use std::alloc::{AllocError, Global};

/// The status of a line, and the intent that decides on it.
#[derive(Clone, Copy, Debug, PartialEq, Eq)]
pub struct LineStatus {
    pub state: State,
    /// The worker of the intent that closes the line. 0 if the line is open.
    pub worker: u64,
    /// The serial number of that intent. 0 if the line is open.
    pub serial: u64,
    /// The time at which that intent was begun, in seconds since 1970. 0 if the line is open.
    pub time: u64,
    /// The time at which that intent ended, by its outcome, in seconds since 1970. 0 if that is not
    /// known.
    pub ended: u64,
}

const OPEN: LineStatus = LineStatus {
    state: State::Open,
    worker: 0,
    serial: 0,
    time: 0,
    ended: 0,
};

/// Returns the status of each of the lines 1..count, in order. If several intents close a line, one
/// that is running decides, else the first in the order of the journals.
///
/// # Errors
///
/// `AllocError` if there was no memory.
pub fn standings(
    alloc: Global,
    log: &RunLog<'_>,
    count: usize,
) -> Result<Vec<LineStatus>, AllocError>
    ensures exact { IfOk result (λ found. found.items ≡ standings_of log.now.findings.now (map (λ journal. journal.items) log.now.journals.now) log.now.finals.now count) }
    // A line has the status open exactly if it is open.
    ensures just_open { IfOk result (λ found. map (λ s. is Open s.state) found.items ≡ map (is_open log.now.findings.now (map (λ journal. journal.items) log.now.journals.now)) (numbers count)) }
{
    let mut found = vec![in alloc; OPEN; count]?;
    note_all(&mut found, log);
    Ok(found)
}

/// Notes the intents of these journals at their lines: the line k + 1 at k.
fn note_all(found: &mut [LineStatus], log: &RunLog<'_>)
    ensures { (k : ℕ) → k < length found.old → slice_index_or found.new k open_standing
        ≡ decided_from (slice_index_or found.old k open_standing) (closing log.now.findings.now log.now.finals.now 1 (map (λ journal. journal.items) log.now.journals.now) (k + 1)) }
{
    let journals = log.journals;
    for (p, journal) in journals.iter().enumerate() {
        note(found, log, p as u64 + 1, journal);
    }
}

/// Notes the intents of this journal.
fn note(found: &mut [LineStatus], log: &RunLog<'_>, worker: u64, attempts: &[Attempt])
    ensures { (k : ℕ) → k < length found.old → slice_index_or found.new k open_standing
        ≡ decided_from (slice_index_or found.old k open_standing) (closing_in log.now.findings.now log.now.finals.now worker 1 attempts.now (k + 1)) }
{
    for (i, attempt) in attempts.iter().enumerate() {
        note_one(found, log, worker, i as u64 + 1, attempt);
    }
}

/// Notes this intent.
#[tactic(auto, using(crate::proofs::Noting::of_another, crate::proofs::Noting::at_its_place))]
fn note_one(found: &mut [LineStatus], log: &RunLog<'_>, worker: u64, serial: u64, attempt: &Attempt)
    ensures { (k : ℕ) → k < length found.old → slice_index_or found.new k open_standing
        ≡ decided_from (slice_index_or found.old k open_standing) (if_closing log.now.findings.now log.now.finals.now worker serial attempt.now (k + 1)) }
{
    if attempt.line == 0 || attempt.line > found.len() as u64 {
        return;
    }
    let line = attempt.line;
    let at = (line - 1) as usize;
    let before = found[at];
    found[at] = decided_with(before, log, worker, serial, attempt, line);
}

/// Returns the status that decides on the line after this intent, with this status before it.
fn decided_with(
    before: LineStatus,
    log: &RunLog<'_>,
    worker: u64,
    serial: u64,
    attempt: &Attempt,
    line: u64,
) -> LineStatus
    ensures { result ≡ decided_from before (if_closing log.now.findings.now log.now.finals.now worker serial attempt.now line) }
{
    if attempt.line != line {
        return before;
    }
    let state = state_of(log, worker, serial, attempt.answer);
    if is(State::Open, state) {
        return before;
    }
    let time = attempt.time;
    let ended = ended_at(attempt.answer);
    let standing = LineStatus {
        state,
        worker,
        serial,
        time,
        ended,
    };
    decided_of(before, standing)
}

/// Returns the one of two that decides.
fn decided_of(old: LineStatus, new: LineStatus) -> LineStatus
    ensures { result ≡ decided_of old new }
{
    if is(State::Open, old.state)
        || (is(State::Running, new.state) && !is(State::Running, old.state))
    {
        return new;
    }
    old
}

/// Returns the status of this line.
pub(crate) fn standing_of(log: &RunLog<'_>, line: u64) -> LineStatus
    ensures { result ≡ standing_of log.now.findings.now (map (λ journal. journal.items) log.now.journals.now) log.now.finals.now line }
{
    decided_by_all(log, line)
}

/// Returns the status that decides on this line.
fn decided_by_all(log: &RunLog<'_>, line: u64) -> LineStatus
    ensures { result ≡ decided_from open_standing (closing log.now.findings.now log.now.finals.now 1 (map (λ journal. journal.items) log.now.journals.now) line) }
{
    let mut standing = OPEN;
    let journals = log.journals;
    for (p, journal) in journals.iter().enumerate() {
        standing = decided_by(standing, log, p as u64 + 1, journal, line);
    }
    standing
}

/// Returns the status that decides on this line after this journal, with this status before it.
fn decided_by(
    before: LineStatus,
    log: &RunLog<'_>,
    worker: u64,
    attempts: &[Attempt],
    line: u64,
) -> LineStatus
    ensures { result ≡ decided_from before (closing_in log.now.findings.now log.now.finals.now worker 1 attempts.now line) }
{
    let mut standing = before;
    for (i, attempt) in attempts.iter().enumerate() {
        let serial = i as u64 + 1;
        standing = decided_with(standing, log, worker, serial, attempt, line);
    }
    standing
}
