//! The status of an intent.
ghost use Rattle.std.specs.Prelude.{◌≡◌};
ghost use Rattle.amo_status.specs.States.{ended_at, is, is_among, is_found_done, number_of, state_by, state_in, state_of};

use crate::run_log::RunLog;
use amo_run_log::{Finding, Outcome, is_not_done, is_undone, reopens};

/// The status of a line, or of an intent.
#[derive(Clone, Copy, Debug, PartialEq, Eq)]
pub enum State {
    /// Nothing closes the line: it may be performed.
    Open,
    /// It was done: its command ended with code 0, or a person found so.
    Done,
    /// Its command ended with another code.
    Failed,
    /// Nobody can know.
    Doubt,
    /// Its command ended with a code which means that it did nothing.
    Untouched,
    /// It may still run, or is about to.
    Running,
}

/// The identity of an intent: its worker, and its place in that worker's journal, each from 1.
#[derive(Clone, Copy, Debug, PartialEq, Eq)]
pub struct AttemptId {
    pub worker: u64,
    pub serial: u64,
}

/// Returns the status of the intent of this worker and serial number, with this outcome.
pub(crate) fn state_of(log: &RunLog<'_>, worker: u64, serial: u64, answer: Option<Outcome>) -> State
    ensures { result ≡ state_of log.now.findings.now log.now.finals.now worker serial answer }
{
    if reopens(answer) || is_undone(log.findings, worker, serial) {
        return State::Open;
    }
    if is_found_done(log.findings, worker, serial) {
        return State::Done;
    }
    state_by(is_among(log.finals, worker, serial), answer)
}

/// Returns the status of an intent by what is known of it.
fn state_by(is_final: bool, answer: Option<Outcome>) -> State
    ensures { result ≡ state_by is_final answer }
{
    match answer {
        Some(answer) => state_in(answer),
        None if is_final => State::Doubt,
        None => State::Running,
    }
}

fn state_in(answer: Outcome) -> State
    ensures { result ≡ state_in answer }
{
    match answer {
        Outcome::Done { code: 0, .. } => State::Done,
        Outcome::Done { .. } => State::Failed,
        Outcome::Doubt { .. } => State::Doubt,
        Outcome::Unbegun => State::Open,
        Outcome::Untouched { .. } => State::Untouched,
    }
}

/// Returns the time at which an intent ended, by its outcome, in seconds since 1970. It is 0 if
/// that is not known.
pub(crate) fn ended_at(answer: Option<Outcome>) -> u64
    ensures { result ≡ ended_at answer }
{
    match answer {
        Some(Outcome::Done { time, .. }) => time,
        Some(Outcome::Doubt { time }) => time,
        Some(Outcome::Untouched { time, .. }) => time,
        Some(Outcome::Unbegun) | None => 0,
    }
}

/// Returns true if a person found that the line was done.
pub(crate) fn is_found_done(findings: &[Finding], worker: u64, serial: u64) -> bool
    ensures { result ≡ is_found_done findings.now worker serial }
{
    findings.iter().any(|f| !is_not_done(f.verdict) && (f.worker == worker && f.serial == serial))
}

/// Returns true if the intent of this worker and serial number is among these.
fn is_among(intents: &[AttemptId], worker: u64, serial: u64) -> bool
    ensures { result ≡ is_among intents.now worker serial }
{
    intents
        .iter()
        .any(|i| i.worker == worker && i.serial == serial)
}

/// Returns true if it is this state.
pub(crate) fn is(kind: State, state: State) -> bool
    ensures { result ≡ is kind state }
{
    number_of(kind) == number_of(state)
}

fn number_of(state: State) -> u8
    ensures { result ≡ number_of state }
{
    match state {
        State::Open => 0,
        State::Done => 1,
        State::Failed => 2,
        State::Doubt => 3,
        State::Untouched => 4,
        State::Running => 5,
    }
}
