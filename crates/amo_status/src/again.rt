//! Intents that did nothing, to be tried again.
ghost use Rattle.std.specs.Prelude.{◌≡◌, ◌++◌, map, IfOk, OnOk};
ghost use Rattle.amo_status.specs.Answers.{is_idle, untouched_in, untouched_of};

use crate::state::AttemptId;
use amo_run_log::{Attempt, Finding, Outcome, has_finding};
use std::alloc::{AllocError, Global};

/// Returns the intents with the outcome `untouched` that no person answered, in the order of the
/// journals. To have their lines tried again, the operator answers each of them `not-done`.
///
/// # Errors
///
/// `AllocError` if there was no memory.
pub fn untouched(
    alloc: Global,
    findings: &[Finding],
    journals: &[Vec<Attempt>],
) -> Result<Vec<AttemptId>, AllocError>
    ensures { IfOk result (λ found. found.items ≡ untouched_of findings.now 1 (map (λ journal. journal.items) journals.now)) }
{
    let mut found = Vec::new(alloc);
    for (p, journal) in journals.iter().enumerate() {
        push_untouched(&mut found, findings, p as u64 + 1, journal)?;
    }
    Ok(found)
}

/// Adds the intents of this journal that did nothing.
fn push_untouched(
    found: &mut Vec<AttemptId>,
    findings: &[Finding],
    worker: u64,
    attempts: &[Attempt],
) -> Result<(), AllocError>
    ensures { OnOk result (found.new.items ≡ found.old.items ++ untouched_in findings.now worker 1 attempts.now) }
{
    for (i, attempt) in attempts.iter().enumerate() {
        let serial = i as u64 + 1;
        if is_idle(attempt.answer) && !has_finding(findings, worker, serial) {
            found.push(AttemptId { worker, serial })?;
        }
    }
    Ok(())
}

/// Returns true if it did nothing.
fn is_idle(answer: Option<Outcome>) -> bool
    ensures { result ≡ is_idle answer }
{
    match answer {
        Some(Outcome::Untouched { .. }) => true,
        Some(Outcome::Done { .. } | Outcome::Doubt { .. } | Outcome::Unbegun) | None => false,
    }
}
