//! The answers of an operator that are appended.
ghost use Rattle.std.specs.Prelude.{◌≡◌, Some, None, option_map, IfErr, IfOk, OnOk};
ghost use Rattle.amo_status.specs.Answers.{refusal_now};
ghost use Rattle.amo_operator.specs.Halting.{Because};
ghost use Rattle.amo_operator.specs.Judging.{again_at, is_text_of, judged_all, judged_for, judged_with, none_judged, quiet_at};
ghost use Rattle.amo_operator.specs.Views.{judged_of, known_of};

use crate::halt::Halt;
use crate::probing::Seen;
use amo_run_log::{Finding, Resolution};
use amo_status::{Quiet, Refusal, RunLog, Said, may_answer, untouched};
use std::alloc::{AllocError, Global};

/// The state after some answers were looked at.
#[derive(Drop)]
pub(crate) struct Judgement {
    /// The findings of the run, and those of these answers.
    pub(crate) findings: Vec<Finding>,
    /// The findings that are to be appended.
    pub(crate) fresh: Vec<Finding>,
    /// The answers that come too early: each by its number, from 1, with the reason.
    pub(crate) early: Vec<(usize, Refusal)>,
    /// The first answer that is to an attempt that may still run.
    pub(crate) running: Option<usize>,
}

/// Looks at each of these answers, which are given at this time, and returns the state after them.
///
/// # Errors
/// `OtherText` and `Refused` for the first answer that is refused, and `Memory`.
pub(crate) fn judge_all(
    alloc: Global,
    seen: &Seen,
    quiet: Option<u64>,
    time: u64,
    all: &[Said],
) -> Result<Judgement, Halt>
    ensures judged { IfOk result (λ j. judged_all (known_of seen.now) quiet time (none_judged (known_of seen.now)) all.now ≡ Some (judged_of j)) }
    ensures refused { IfErr result (λ halt. Because halt (judged_all (known_of seen.now) quiet time (none_judged (known_of seen.now)) all.now ≡ None)) }
{
    let mut judged = Judgement {
        findings: seen.findings.clone()?,
        fresh: Vec::new(alloc),
        early: Vec::new(alloc),
        running: None,
    };
    for k in 0..all.len() {
        judge(seen, quiet, time, &all[k], k + 1, &mut judged)?;
    }
    Ok(judged)
}

/// Looks at one answer, the one of this number.
///
/// # Errors
/// `OtherText` or `Refused` if it is refused, and `Memory`.
fn judge(
    seen: &Seen,
    quiet: Option<u64>,
    time: u64,
    said: &Said,
    number: usize,
    judged: &mut Judgement,
) -> Result<(), Halt>
    ensures judged { OnOk result (judged_with (known_of seen.now) quiet time (judged_of judged.old) said.now ≡ Some (judged_of judged.new)) }
    ensures refused { IfErr result (λ halt. Because halt (judged_with (known_of seen.now) quiet time (judged_of judged.old) said.now ≡ None)) }
{
    if !is_text_of(&said.text, seen.jobs.line(said.line)) {
        return Err(Halt::OtherText(number));
    }
    let finding = Finding {
        verdict: said.verdict,
        worker: said.worker,
        serial: said.serial,
        time,
    };
    let refusal = refusal_of(seen, quiet_at(quiet, time), said, &judged.findings);
    note(judged, finding, refusal, number)
}

/// Returns how long an attempt must have been over.
fn quiet_at(quiet: Option<u64>, time: u64) -> Option<Quiet>
    ensures { result ≡ quiet_at quiet time }
{
    match quiet {
        Some(seconds) => Some(Quiet { now: time, seconds }),
        None => None,
    }
}

/// Returns true if this is the text of the line.
fn is_text_of(text: &[u8], line: Option<&[u8]>) -> bool
    ensures { result ≡ is_text_of text.now (option_map (λ line. line.now) line.entry) }
{
    match line {
        Some(line) => line == text,
        None => false,
    }
}

/// Returns why an answer is refused now, if it is. The findings are those of the run, and of the
/// answers before it.
fn refusal_of(
    seen: &Seen,
    quiet: Option<Quiet>,
    said: &Said,
    findings: &[Finding],
) -> Option<Refusal>
    ensures { result ≡ refusal_now quiet findings.now (known_of seen.now).journals (known_of seen.now).finals said.now.worker said.now.serial said.now.line said.now.verdict }
{
    let log = RunLog {
        findings,
        journals: seen.journals.as_slice(),
        finals: seen.finals.as_slice(),
    };
    may_answer(
        &log,
        quiet,
        said.worker,
        said.serial,
        said.line,
        said.verdict,
    )
    .err()
}

/// Notes what came of the answer of this number: its finding, and why it is refused, if it is.
///
/// # Errors
/// `Refused` unless it comes too early, was given before, or is to an attempt that may still run,
/// and `Memory`.
fn note(
    judged: &mut Judgement,
    finding: Finding,
    refusal: Option<Refusal>,
    number: usize,
) -> Result<(), Halt>
    ensures noted { OnOk result (judged_for (judged_of judged.old) finding refusal ≡ Some (judged_of judged.new)) }
    ensures refused { IfErr result (λ halt. Because halt (judged_for (judged_of judged.old) finding refusal ≡ None)) }
{
    let Some(why) = refusal else {
        judged.findings.push(finding)?;
        judged.fresh.push(finding)?;
        return Ok(());
    };
    match why {
        Refusal::AnsweredSo => Ok(()),
        Refusal::Running => {
            judged.running = judged.running.or(Some(number));
            Ok(())
        }
        Refusal::TooYoung { .. } | Refusal::EndAhead { .. } | Refusal::EndUnknown => {
            judged.findings.push(finding)?;
            judged.early.push((number, why))?;
            Ok(())
        }
        Refusal::NoIntent
        | Refusal::OtherLine
        | Refusal::NotClosing
        | Refusal::NotAsked
        | Refusal::AnsweredOtherwise => Err(Halt::Refused(number, why)),
    }
}

/// Returns the answers by which lines are tried again at this time.
pub(crate) fn again_at(alloc: Global, seen: &Seen, time: u64) -> Result<Vec<Finding>, AllocError>
    ensures { IfOk result (λ findings. findings.items ≡ again_at (known_of seen.now) time) }
{
    let mut findings = Vec::new(alloc);
    for attempt in untouched(alloc, &seen.findings, &seen.journals)? {
        findings.push(Finding {
            verdict: Resolution::NotDone,
            worker: attempt.worker,
            serial: attempt.serial,
            time,
        })?;
    }
    Ok(findings)
}
