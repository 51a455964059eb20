//! The attempts of a journal, each with how it stands.
ghost use Rattle.std.specs.Prelude.{◌≡◌, ◌&&◌, [], not, IfOk};
ghost use Rattle.amo_status.specs.States.{is_found_done, state_by, state_in, state_of};
ghost use Rattle.amo_watch.specs.RowsOf.{row_of, rows_from};

use crate::row::AttemptRow;
use amo_run_log::{Attempt, Finding, Outcome, is_not_done, is_undone, reopens};
use amo_status::State;
use std::alloc::{AllocError, Global};

/// Returns the attempts of this worker's journal, in order, each with its status by its records and
/// by the operators' answers.
///
/// # Errors
///
/// `AllocError` if there was no memory.
pub fn attempt_rows(
    alloc: Global,
    findings: &[Finding],
    worker: u64,
    attempts: &[Attempt],
) -> Result<Vec<AttemptRow>, AllocError>
    ensures { IfOk result (λ rows. rows.items ≡ rows_from findings.now worker 1 attempts.now) }
{
    let mut rows = Vec::new(alloc);
    for (i, attempt) in attempts.iter().enumerate() {
        rows.push(row_of(findings, worker, i as u64 + 1, attempt))?;
    }
    Ok(rows)
}

/// Returns the row of the attempt of this worker and serial number.
fn row_of(findings: &[Finding], worker: u64, serial: u64, attempt: &Attempt) -> AttemptRow
    ensures { result ≡ row_of findings.now worker serial attempt.now }
{
    AttemptRow {
        worker,
        serial,
        line: attempt.line,
        begun: attempt.time,
        outcome: attempt.answer,
        state: state_of(findings, worker, serial, attempt.answer),
    }
}

/// Returns how the attempt of this worker and serial number stands, of which this outcome is
/// recorded. A pending one counts as running.
fn state_of(findings: &[Finding], worker: u64, serial: u64, outcome: Option<Outcome>) -> State
    ensures { result ≡ state_of findings.now [] worker serial outcome }
{
    if reopens(outcome) || is_undone(findings, worker, serial) {
        return State::Open;
    }
    if is_found_done(findings, worker, serial) {
        return State::Done;
    }
    match outcome {
        Some(outcome) => state_in(outcome),
        None => State::Running,
    }
}

/// Returns how an attempt stands by its outcome.
fn state_in(outcome: Outcome) -> State
    ensures { result ≡ state_in outcome }
{
    match outcome {
        Outcome::Done { code: 0, .. } => State::Done,
        Outcome::Done { .. } => State::Failed,
        Outcome::Doubt { .. } => State::Doubt,
        Outcome::Unbegun => State::Open,
        Outcome::Untouched { .. } => State::Untouched,
    }
}

/// Returns true if an operator found that the job of this attempt was done.
fn is_found_done(findings: &[Finding], worker: u64, serial: u64) -> bool
    ensures { result ≡ is_found_done findings.now worker serial }
{
    findings.iter().any(|f| !is_not_done(f.verdict) && (f.worker == worker && f.serial == serial))
}
