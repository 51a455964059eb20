//! The answers of persons that are taken.
ghost use Rattle.std.specs.Prelude.{◌≡◌, ◌↔◌, map, IsOk};
ghost use Rattle.std.specs.Result.{result_err};
ghost use Rattle.amo_status.specs.Ages.{age_of};
ghost use Rattle.amo_status.specs.Answers.{contrary, is_closed_by, is_said, must_wait, refusal_now, refusal_of, unquiet_by, wait_of, MayBeTakenNow};
ghost use Rattle.amo_status.specs.Standings.{attempt_of};

use crate::age::{Age, age_of};
use crate::refusal::Refusal;
use crate::run_log::RunLog;
use crate::standing::standing_of;
use crate::state::{AttemptId, State, ended_at, is_found_done, state_of};
use amo_run_log::{Attempt, Finding, Outcome, Resolution, is_undone};

/// How long an attempt must have been over before `not-done` is taken.
#[derive(Clone, Copy, Debug, PartialEq, Eq)]
pub struct Quiet {
    /// The clock's time, in seconds since 1970.
    pub now: u64,
    /// How many seconds must have passed since the attempt ended.
    pub seconds: u64,
}

/// Returns true if a person's answer to the intent of this worker and serial number, said to be of
/// this line, may be taken. It may only if a person is asked about that intent, if no person has
/// answered it, and if it closes the line now. A person is asked about an intent that is noted as
/// doubt, as untouched or by a code other than 0. So is a final intent that has no answer.
///
/// A request that the attempt had sent may still arrive. So `quiet` states how long `not-done` of
/// an attempt that is in doubt or failed has to wait. It is taken only if the attempt ended at a
/// known time, and so many seconds have passed since. `done` never waits.
///
/// # Errors
///
/// The first of these reasons: the intent isn't there, it is of another line, it was answered, or
/// nobody is asked. Then: it runs, another intent closes the line, or the answer comes too early.
pub fn may_answer(
    log: &RunLog<'_>,
    quiet: Option<Quiet>,
    worker: u64,
    serial: u64,
    line: u64,
    verdict: Resolution,
) -> Result<(), Refusal>
    ensures exact { result_err result ≡ refusal_now quiet log.now.findings.now (map (λ journal. journal.items) log.now.journals.now) log.now.finals.now worker serial line verdict }
    ensures taken { IsOk result ↔ MayBeTakenNow quiet log.now.findings.now (map (λ journal. journal.items) log.now.journals.now) log.now.finals.now worker serial line verdict }
{
    let intent = AttemptId { worker, serial };
    checked_now(log, quiet, intent, line, verdict)
}

fn checked_now(
    log: &RunLog<'_>,
    quiet: Option<Quiet>,
    intent: AttemptId,
    line: u64,
    verdict: Resolution,
) -> Result<(), Refusal>
    ensures { result_err result ≡ refusal_now quiet log.now.findings.now (map (λ journal. journal.items) log.now.journals.now) log.now.finals.now intent.worker intent.serial line verdict }
{
    checked(log, intent, line, verdict)?;
    waited(log, quiet, intent, verdict)
}

/// Refuses an answer that comes too early.
fn waited(
    log: &RunLog<'_>,
    quiet: Option<Quiet>,
    intent: AttemptId,
    verdict: Resolution,
) -> Result<(), Refusal>
    ensures { result_err result ≡ wait_of quiet verdict (attempt_of (map (λ journal. journal.items) log.now.journals.now) intent.worker intent.serial) }
{
    let Some(quiet) = quiet else {
        return Ok(());
    };
    let Some(attempt) = attempt_of(log.journals, intent.worker, intent.serial) else {
        return Ok(());
    };
    if must_wait(verdict, attempt.answer) {
        return quiet_since(quiet, ended_at(attempt.answer));
    }
    Ok(())
}

/// Returns true if an answer has to wait until its attempt is quiet: only `not-done`, of an attempt
/// that is in doubt or failed.
fn must_wait(verdict: Resolution, answer: Option<Outcome>) -> bool
    ensures { result ≡ must_wait verdict answer }
{
    match verdict {
        Resolution::Done => false,
        Resolution::NotDone => match answer {
            None | Some(Outcome::Done { .. } | Outcome::Doubt { .. }) => true,
            Some(Outcome::Unbegun | Outcome::Untouched { .. }) => false,
        },
    }
}

/// Refuses an attempt that ended then and isn't quiet yet.
fn quiet_since(quiet: Quiet, ended: u64) -> Result<(), Refusal>
    ensures { result_err result ≡ unquiet_by quiet ended (age_of quiet.now ended) }
{
    let Quiet { now, seconds } = quiet;
    match age_of(now, ended) {
        Age::Unknown => Err(Refusal::EndUnknown),
        Age::Ahead => Err(Refusal::EndAhead { ended, now }),
        Age::Seconds(age) if age < seconds => Err(Refusal::TooYoung {
            ended,
            now,
            seconds,
        }),
        Age::Seconds(_) => Ok(()),
    }
}

fn checked(
    log: &RunLog<'_>,
    intent: AttemptId,
    line: u64,
    verdict: Resolution,
) -> Result<(), Refusal>
    ensures { result_err result ≡ refusal_of log.now.findings.now (map (λ journal. journal.items) log.now.journals.now) log.now.finals.now intent.worker intent.serial line verdict }
{
    let AttemptId { worker, serial } = intent;
    let Some(attempt) = attempt_of(log.journals, worker, serial) else {
        return Err(Refusal::NoIntent);
    };
    if attempt.line != line {
        return Err(Refusal::OtherLine);
    }
    if is_said(log.findings, worker, serial, contrary(verdict)) {
        return Err(Refusal::AnsweredOtherwise);
    }
    if is_said(log.findings, worker, serial, verdict) {
        return Err(Refusal::AnsweredSo);
    }
    match state_of(log, worker, serial, attempt.answer) {
        State::Open | State::Done => Err(Refusal::NotAsked),
        State::Running => Err(Refusal::Running),
        State::Failed | State::Doubt | State::Untouched => {
            if is_closed_by(log, intent, line) {
                Ok(())
            } else {
                Err(Refusal::NotClosing)
            }
        }
    }
}

/// Returns the intent of this worker and serial number, if there is one.
fn attempt_of(journals: &[Vec<Attempt>], worker: u64, serial: u64) -> Option<Attempt>
    ensures { result ≡ attempt_of (map (λ journal. journal.items) journals.now) worker serial }
{
    if worker == 0 || worker > journals.len() as u64 {
        return None;
    }
    let journal = &journals[(worker - 1) as usize];
    if serial == 0 || serial > journal.len() as u64 {
        return None;
    }
    Some(journal[(serial - 1) as usize])
}

/// Returns true if a person gave this verdict on the intent.
fn is_said(findings: &[Finding], worker: u64, serial: u64, verdict: Resolution) -> bool
    ensures { result ≡ is_said findings.now worker serial verdict }
{
    match verdict {
        Resolution::Done => is_found_done(findings, worker, serial),
        Resolution::NotDone => is_undone(findings, worker, serial),
    }
}

fn contrary(verdict: Resolution) -> Resolution
    ensures { result ≡ contrary verdict }
{
    match verdict {
        Resolution::Done => Resolution::NotDone,
        Resolution::NotDone => Resolution::Done,
    }
}

/// Returns true if this intent closes the line now.
fn is_closed_by(log: &RunLog<'_>, intent: AttemptId, line: u64) -> bool
    ensures { result ≡ is_closed_by log.now.findings.now (map (λ journal. journal.items) log.now.journals.now) log.now.finals.now intent.worker intent.serial line }
{
    let standing = standing_of(log, line);
    standing.worker == intent.worker && standing.serial == intent.serial
}
