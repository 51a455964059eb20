//! The lines that are open.
ghost use Rattle.std.specs.List.{filter};
ghost use Rattle.std.specs.Prelude.{◌≡◌, ◌+◌, ◌<◌, ◌||◌, ℕ, Bool, true, false, not, length, map, slice_index_or, IfOk};
ghost use Rattle.amo_run_log.specs.Open.{opens, reopens, closes, any_closes, closed_by, numbers, open_lines};

use crate::entry::Outcome;
use crate::finding::{Finding, is_undone};
use crate::journal::Attempt;
use std::alloc::{AllocError, Global};

/// Returns the open lines of 1..count, in rising order. The journals are those of the workers 1, 2
/// and so on.
///
/// # Errors
///
/// `AllocError` if there was no memory.
pub fn open_lines(
    alloc: Global,
    findings: &[Finding],
    journals: &[Vec<Attempt>],
    count: usize,
) -> Result<Vec<u64>, AllocError>
    ensures { IfOk result (λ lines. lines.items ≡ open_lines findings.now (map (λ journal. journal.items) journals.now) count) }
{
    let mut closed = vec![in alloc; false; count]?;
    mark_all(&mut closed, findings, journals);
    unmarked(alloc, &closed)
}

/// Returns the lines that are not marked, in order.
fn unmarked(alloc: Global, closed: &[bool]) -> Result<Vec<u64>, AllocError>
    ensures { (is_open : ℕ → Bool) → ((k : ℕ) → k < length closed.now → slice_index_or closed.now k false ≡ not (is_open (k + 1))) → IfOk result (λ lines. lines.items ≡ filter is_open (numbers (length closed.now))) }
{
    let mut lines = Vec::new(alloc);
    for (k, is_closed) in closed.iter().enumerate() {
        if !*is_closed {
            lines.push(k as u64 + 1)?;
        }
    }
    Ok(lines)
}

/// Marks each line that an intent of these journals closes: the line k + 1 at k.
fn mark_all(closed: &mut [bool], findings: &[Finding], journals: &[Vec<Attempt>])
    ensures { (k : ℕ) → k < length closed.old → slice_index_or closed.new k false ≡ (slice_index_or closed.old k false || closed_by findings.now 1 (map (λ journal. journal.items) journals.now) (k + 1)) }
{
    for (p, journal) in journals.iter().enumerate() {
        mark(closed, findings, p as u64 + 1, journal);
    }
}

/// Marks each line that an intent of this journal closes.
fn mark(closed: &mut [bool], findings: &[Finding], worker: u64, attempts: &[Attempt])
    ensures { (k : ℕ) → k < length closed.old → slice_index_or closed.new k false ≡ (slice_index_or closed.old k false || any_closes findings.now worker 1 attempts.now (k + 1)) }
{
    for (i, attempt) in attempts.iter().enumerate() {
        mark_one(closed, findings, worker, i as u64 + 1, attempt);
    }
}

/// Marks the line of this intent, if it closes it.
fn mark_one(closed: &mut [bool], findings: &[Finding], worker: u64, serial: u64, attempt: &Attempt)
    ensures { (k : ℕ) → k < length closed.old → slice_index_or closed.new k false ≡ (slice_index_or closed.old k false || closes findings.now worker serial attempt.now (k + 1)) }
{
    if reopens(attempt.answer) || is_undone(findings, worker, serial) {
        return;
    }
    if attempt.line == 0 || attempt.line > closed.len() as u64 {
        return;
    }
    closed[(attempt.line - 1) as usize] = true;
}

/// Returns true if an intent with this outcome leaves its line open: only if it was not begun. An
/// intent without an outcome closes its line.
pub fn reopens(answer: Option<Outcome>) -> bool
    ensures { result ≡ reopens answer }
{
    match answer {
        Some(answer) => opens(answer),
        None => false,
    }
}

/// Returns true if this outcome opens the line again: only that it was not begun.
pub fn opens(answer: Outcome) -> bool
    ensures { result ≡ opens answer }
{
    match answer {
        Outcome::Unbegun => true,
        Outcome::Done { .. } | Outcome::Doubt { .. } | Outcome::Untouched { .. } => false,
    }
}
