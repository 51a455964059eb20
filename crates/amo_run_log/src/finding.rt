//! Findings of persons on intents, as texts.
ghost use Rattle.std.specs.Prelude.{◌≡◌, ◌<◌, ◌-◌, ℕ, true, take, slice_get, IfOk, IfErr, IfSome, IfNone, Some, map, string_bytes};
ghost use Rattle.std.specs.List.{list_any};
ghost use Rattle.amo_run_log.specs.Faults.{SaysNothing};
ghost use Rattle.amo_run_log.specs.Findings.{text_of_finding, FitsFinding, word_of, verdict_in, finding_of_word, finding_in, findings_in, is_intent, is_not_done, is_of, is_undone, may_join, AreInPlace, IsOutOfPlace};
ghost use Rattle.amo_run_log.specs.declared.finding.Finding.{Finding as FindingView};

use crate::fault::Fault;
use crate::journal::Attempt;
use crate::numbers::three;
use crate::reading::{FromText, read_each};
use std::alloc::{AllocError, Global};
use std::str;

/// The verdict of a person on an intent.
#[derive(Clone, Copy, Debug, PartialEq, Eq)]
pub enum Resolution {
    /// The line was done.
    Done,
    /// It was not done: its line may be performed.
    NotDone,
}

/// The finding of a person on an intent.
#[derive(Clone, Copy, Debug, PartialEq, Eq)]
pub struct Finding {
    pub verdict: Resolution,
    /// The worker whose intent it is, from 1.
    pub worker: u64,
    /// Its place in that worker's journal, from 1.
    pub serial: u64,
    /// The time of the finding, in seconds since 1970.
    pub time: u64,
}

impl Finding {
    /// Returns the text of the finding, without an end.
    ///
    /// # Errors
    ///
    /// `AllocError` if there was no memory.
    pub fn print(&self, alloc: Global) -> Result<String, AllocError>
        ensures text { IfOk result (λ text. string_bytes text ≡ text_of_finding self.now) }
        ensures fits { FitsFinding self.now }
    {
        let Finding {
            verdict,
            worker,
            serial,
            time,
        } = *self;
        match verdict {
            Resolution::Done => format!(in alloc; "done {worker} {serial} {time}"),
            Resolution::NotDone => format!(in alloc; "not-done {worker} {serial} {time}"),
        }
    }

    /// Returns the finding that these bytes say, or `None`.
    pub fn read(bytes: &[u8]) -> Option<Finding>
        ensures exact { result ≡ finding_in bytes.now }
        // The finding that is read has this text.
        ensures found { IfSome result (λ finding. text_of_finding finding ≡ bytes.now) }
        // The text of a finding is read.
        ensures none { IfNone result ((finding : FindingView) → FitsFinding finding → text_of_finding finding ≡ bytes.now → ⊥) }
    {
        finding_of_bytes(bytes)
    }
}

impl FromText for Finding {
    ghost said = { finding_in };

    fn from_text(text: &[u8]) -> Option<Finding> {
        Finding::read(text)
    }
}

/// Returns the finding that the bytes say. Bytes that are not UTF-8 say none.
#[tactic(auto, using(crate::proofs::FindingTexts::no_text))]
fn finding_of_bytes(bytes: &[u8]) -> Option<Finding>
    ensures { result ≡ finding_in bytes.now }
{
    match str::from_utf8(bytes) {
        Ok(text) => finding_of(text),
        Err(_) => None,
    }
}

fn finding_of(text: &str) -> Option<Finding>
    ensures { result ≡ finding_in text.now }
{
    let (word, rest) = text.split_once(' ')?;
    finding_of_word(word, rest)
}

fn finding_of_word(word: &str, rest: &str) -> Option<Finding>
    ensures { result ≡ finding_of_word word.now rest.now }
{
    let verdict = verdict_of(word)?;
    let (worker, serial, time) = three(rest)?;
    Some(Finding {
        verdict,
        worker,
        serial,
        time,
    })
}

fn verdict_of(word: &str) -> Option<Resolution>
    ensures { result ≡ verdict_in word.now }
{
    match word {
        "done" => Some(Resolution::Done),
        "not-done" => Some(Resolution::NotDone),
        _ => None,
    }
}

/// Reads each text as a finding.
///
/// # Errors
///
/// `Refused` with the number of the first text that isn't a finding. `Memory` if there was no
/// memory.
pub fn read_findings(alloc: Global, texts: &[Vec<u8>]) -> Result<Vec<Finding>, Fault>
    ensures exact { IfOk result (λ findings. findings_in (map (λ text. text.items) texts.now) ≡ Some findings.items) }
    ensures refused { IfErr result (SaysNothing finding_in (map (λ text. text.items) texts.now)) }
{
    read_each(alloc, texts)
}

/// Returns true if the intent of this worker and serial number was found not done.
pub fn is_undone(findings: &[Finding], worker: u64, serial: u64) -> bool
    ensures { result ≡ is_undone findings.now worker serial }
{
    findings.iter().any(|f| is_not_done(f.verdict) && (f.worker == worker && f.serial == serial))
}

/// Returns whether the verdict is that the line was not done.
pub fn is_not_done(verdict: Resolution) -> bool
    ensures { result ≡ is_not_done verdict }
{
    match verdict {
        Resolution::Done => false,
        Resolution::NotDone => true,
    }
}

/// Returns the number, from 1, of the first finding that is out of place. It is of no intent, or of
/// one that has a finding before it. The journals are those of the workers 1, 2 and so on.
pub fn first_misplaced(journals: &[Vec<Attempt>], findings: &[Finding]) -> Option<usize>
    ensures none { IfNone result (AreInPlace (map (λ journal. journal.items) journals.now) findings.now) }
    ensures found { IfSome result (IsOutOfPlace (map (λ journal. journal.items) journals.now) findings.now) }
    // Each finding before it is in place.
    ensures first { IfSome result (λ number. (k : ℕ) (f : FindingView) → k < number - 1 → slice_get findings.now k ≡ Some f → may_join (map (λ journal. journal.items) journals.now) (take k findings.now) f ≡ true) }
{
    for (i, finding) in findings.iter().enumerate() {
        if !may_join(journals, &findings[..i], finding) {
            return Some(i + 1);
        }
    }
    None
}

/// Returns true if a finding may follow those before it.
fn may_join(journals: &[Vec<Attempt>], before: &[Finding], finding: &Finding) -> bool
    ensures { result ≡ may_join (map (λ journal. journal.items) journals.now) before.now finding.now }
{
    is_intent(journals, finding.worker, finding.serial)
        && !has_finding(before, finding.worker, finding.serial)
}

/// Returns true if there is an intent of this worker and serial number.
fn is_intent(journals: &[Vec<Attempt>], worker: u64, serial: u64) -> bool
    ensures { result ≡ is_intent (map (λ journal. journal.items) journals.now) worker serial }
{
    if worker == 0 || worker > journals.len() as u64 {
        return false;
    }
    1 <= serial && serial <= journals[(worker - 1) as usize].len() as u64
}

/// Returns whether one of the findings is of the intent of this worker and serial number, whatever
/// its verdict.
pub fn has_finding(findings: &[Finding], worker: u64, serial: u64) -> bool
    ensures { result ≡ list_any (is_of worker serial) findings.now }
{
    findings
        .iter()
        .any(|f| f.worker == worker && f.serial == serial)
}
