//! Clearance: a line is clear for an attempt if each other attempt at it is opened. An attempt is
//! opened if it was not begun, or if a person found it not done.
ghost use Rattle.std.specs.Prelude.{◌≡◌, ◌⊎◌, ◌<◌, ◌≤◌, ◌-◌, ℕ, List, true, false, slice_get, map, IfNone, IfSome, Some};
ghost use Rattle.std.specs.List.{list_any};
ghost use Rattle.amo_run_log.specs.ByLine.{is_id, IsFrom};
ghost use Rattle.amo_run_log.specs.Clearance.{IsBefore, IsOpened, IsStanding};
ghost use Rattle.amo_run_log.specs.declared.journal.Attempt.{Attempt as AttemptView};

use crate::finding::{Finding, is_undone};
use crate::journal::Attempt;
use crate::open::reopens;

/// The identity of an attempt, among all that the journals have.
#[derive(Clone, Copy, Debug, PartialEq, Eq)]
pub struct AttemptId {
    /// The number of the worker whose journal has it, from 1.
    pub worker: u64,
    /// Its place in that journal, from 1.
    pub serial: u64,
}

/// Returns the first of these attempts, by worker and serial number, that stands against handing
/// the line over by the attempt `own`. The journals are those of the workers 1, 2 and so on.
pub(crate) fn first_standing(
    findings: &[Finding],
    journals: &[Vec<Attempt>],
    ids: &[AttemptId],
    own: AttemptId,
    line: u64,
) -> Option<AttemptId>
    ensures standing { IfSome result (IsStanding findings.now (map (λ journal. journal.items) journals.now) own line) }
    // None of them that stands comes before it.
    ensures first { (worker serial : ℕ) → list_any (is_id worker serial) ids.now ≡ true
        → IsStanding findings.now (map (λ journal. journal.items) journals.now) own line (record { worker = worker; serial = serial })
        → IsFrom result worker serial }
{
    let mut first = None;
    for id in ids {
        first = earlier(findings, journals, first, *id, own, line);
    }
    first
}

/// Returns this attempt if it stands and comes before the one that was found, else that one.
fn earlier(
    findings: &[Finding],
    journals: &[Vec<Attempt>],
    first: Option<AttemptId>,
    id: AttemptId,
    own: AttemptId,
    line: u64,
) -> Option<AttemptId>
    ensures standing { IfSome first (IsStanding findings.now (map (λ journal. journal.items) journals.now) own line)
        → IfSome result (IsStanding findings.now (map (λ journal. journal.items) journals.now) own line) }
    ensures first { IsStanding findings.now (map (λ journal. journal.items) journals.now) own line id → IsFrom result id.worker id.serial }
    ensures stays { (worker serial : ℕ) → IsFrom first worker serial → IsFrom result worker serial }
{
    if is_from(first, id) || !stands(findings, journals, id, own, line) {
        first
    } else {
        Some(id)
    }
}

/// Returns true if an attempt was found that doesn't come after this one.
fn is_from(first: Option<AttemptId>, id: AttemptId) -> bool
    ensures yes { result ≡ true → IsFrom first id.worker id.serial }
    ensures no { result ≡ false → IfSome first (λ found. IsBefore found id.worker id.serial) }
{
    match first {
        Some(found) => {
            found.worker < id.worker || (found.worker == id.worker && found.serial <= id.serial)
        }
        None => false,
    }
}

/// Returns true if this is another attempt at the line, and is not opened.
fn stands(
    findings: &[Finding],
    journals: &[Vec<Attempt>],
    id: AttemptId,
    own: AttemptId,
    line: u64,
) -> bool
    ensures yes { result ≡ true → IsStanding findings.now (map (λ journal. journal.items) journals.now) own line id }
    ensures no { result ≡ false → IsStanding findings.now (map (λ journal. journal.items) journals.now) own line id → ⊥ }
{
    match attempt_of(journals, id) {
        Some(attempt) => { attempt.line == line && id != own && !is_opened(findings, id, attempt) }
        None => false,
    }
}

/// Returns the attempt of this worker and serial number, if there is one.
fn attempt_of<'a>(journals: &'a [Vec<Attempt>], id: AttemptId) -> Option<&'a Attempt>
    ensures found { IfSome result (λ attempt. (1 ≤ id.worker) × (1 ≤ id.serial) × (es : List AttemptView)
        × (slice_get (map (λ journal. journal.items) journals.now) (id.worker - 1) ≡ Some es) × (slice_get es (id.serial - 1) ≡ Some attempt.now)) }
    ensures none { IfNone result ((es : List AttemptView) (e : AttemptView) → 1 ≤ id.worker → 1 ≤ id.serial
        → slice_get (map (λ journal. journal.items) journals.now) (id.worker - 1) ≡ Some es → slice_get es (id.serial - 1) ≡ Some e → ⊥) }
{
    if id.worker == 0 || id.worker > journals.len() as u64 {
        return None;
    }
    let journal = &journals[(id.worker - 1) as usize];
    if id.serial == 0 || id.serial > journal.len() as u64 {
        return None;
    }
    Some(&journal[(id.serial - 1) as usize])
}

/// Returns true if this attempt is opened.
fn is_opened(findings: &[Finding], id: AttemptId, attempt: &Attempt) -> bool
    ensures yes { result ≡ true → IsOpened findings.now id.worker id.serial attempt.now }
    ensures no { result ≡ false → IsOpened findings.now id.worker id.serial attempt.now → ⊥ }
{
    reopens(attempt.answer) || is_undone(findings, id.worker, id.serial)
}
