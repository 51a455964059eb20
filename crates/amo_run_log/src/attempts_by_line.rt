//! The attempts of all journals, with an index by line. It is kept as entries are noted, so that a
//! question about one line looks at the attempts at that line alone.
ghost use Rattle.std.specs.Prelude.{◌≡◌, ◌+◌, ◌-◌, ◌≤◌, true, false, max, ℕ, List, [], length, map, replicate, IfNone, IfOk, IfSome, OnErr, OnOk};
ghost use Rattle.amo_run_log.specs.ByLine.{listed, IsIndex, IsListed, ListsIntent, NotesIn};
ghost use Rattle.amo_run_log.specs.Clearance.{IsAttempt, IsBefore, IsClear, IsOpened, IsOther, IsStanding};
ghost use Rattle.amo_run_log.specs.declared.journal.Attempt.{Attempt as AttemptView};
ghost use Rattle.amo_run_log.specs.Entries.{entries_of_append};
ghost use Rattle.amo_run_log.specs.ReadLogs.{NotesEntries};

use crate::append::Append;
use crate::clearance::{AttemptId, first_standing};
use crate::entry::Entry;
use crate::finding::Finding;
use crate::journal::{Attempt, note};
use std::alloc::{AllocError, Global};

/// The attempts of all journals of a run, by journal and by line.
#[derive(Drop)]
pub struct AttemptsByLine {
    /// The attempts of each journal, in order. The journals are those of the workers 1, 2 and so
    /// on.
    journals: Vec<Vec<Attempt>>,
    /// For the line k + 1 the attempts at it, at k, in the order in which they were noted. An entry
    /// that was refused after all may be among them: a question passes over it.
    lines: Vec<Vec<AttemptId>>,
    ghost indexed: { IsIndex (map (λ line. line.items) lines.items) (map (λ journal. journal.items) journals.items) },
}

impl AttemptsByLine {
    /// Returns so many journals without an attempt, of a run that knows no line yet.
    ///
    /// # Errors
    ///
    /// `AllocError` if there was no memory.
    pub fn new(alloc: Global, journals: usize) -> Result<AttemptsByLine, AllocError>
        ensures journals { IfOk result (λ made. map (λ journal. journal.items) made.journals.items ≡ replicate journals []) }
        ensures lines { IfOk result (λ made. made.lines.items ≡ []) }
    {
        let mut empty = Vec::new(alloc);
        for _journal in 0..journals {
            empty.push(Vec::new(alloc))?;
        }
        Ok(AttemptsByLine {
            journals: empty,
            lines: Vec::new(alloc),
        })
    }

    /// Returns the first attempt at the line, by worker and serial number, that stands against
    /// handing the line over by the attempt `own`: another one that isn't opened. Returns `None` if
    /// the line is clear. Earlier attempts of the same worker count. It takes time in proportion to
    /// the attempts at this line, and for each that isn't opened by its own outcome to the
    /// findings.
    pub fn standing(&self, findings: &[Finding], own: AttemptId, line: u64) -> Option<AttemptId>
        ensures clear { IfNone result (IsClear findings.now (map (λ journal. journal.items) self.now.journals.items) own line) }
        ensures standing { IfSome result (IsStanding findings.now (map (λ journal. journal.items) self.now.journals.items) own line) }
        // Each other attempt before it is opened.
        ensures first { IfSome result (λ other. (worker serial : ℕ) (e : AttemptView) → IsBefore other worker serial → IsAttempt (map (λ journal. journal.items) self.now.journals.items) line worker serial e → IsOther own worker serial → IsOpened findings.now worker serial e) }
    {
        let ids = listed_for(&self.lines, line);
        first_standing(findings, &self.journals, ids, own, line)
    }

    /// Returns the attempts of each journal, in order. The journals are those of the workers 1, 2
    /// and so on.
    pub fn journals(&self) -> &[Vec<Attempt>]
        ensures { result.now ≡ self.now.journals.items }
    {
        &self.journals
    }

    /// Notes one entry more of this worker, and returns true if it may follow those that were
    /// noted. An entry that may not changes no journal.
    ///
    /// # Errors
    ///
    /// `AllocError` if there was no memory. Then no journal changed.
    pub fn note(&mut self, worker: u64, entry: Entry) -> Result<bool, AllocError>
        ensures noted { IfOk result (λ noted. NotesIn (length self.old.lines.items) noted (map (λ journal. journal.items) self.old.journals.items) worker entry (map (λ journal. journal.items) self.new.journals.items)) }
        ensures refused { OnErr result (map (λ journal. journal.items) self.new.journals.items ≡ map (λ journal. journal.items) self.old.journals.items) }
        ensures lines { length self.new.lines.items ≡ length self.old.lines.items }
    {
        if worker == 0 || worker > self.journals.len() as u64 {
            return Ok(false);
        }
        list(&mut self.lines, worker, entry)?;
        let count = self.lines.len() as u64;
        note(count, &mut self.journals[(worker - 1) as usize], entry)
    }

    /// Notes the entries of an append of this worker, and returns whether they may follow those
    /// that were noted. If they may not, the first of two may have been noted.
    pub(crate) fn note_append(&mut self, worker: u64, append: Append) -> Result<bool, AllocError>
        ensures noted { IfOk result (λ noted. NotesEntries (length self.old.lines.items) noted (map (λ journal. journal.items) self.old.journals.items) worker (entries_of_append append) (map (λ journal. journal.items) self.new.journals.items)) }
        ensures lines { length self.new.lines.items ≡ length self.old.lines.items }
    {
        match append {
            Append::One(entry) => self.note(worker, entry),
            Append::Two(first, second) => {
                if self.note(worker, first)? {
                    self.note(worker, second)
                } else {
                    Ok(false)
                }
            }
        }
    }

    /// Returns true if there is a journal of this worker.
    pub(crate) fn has_journal(&self, worker: u64) -> bool
        ensures yes { result ≡ true → (1 ≤ worker) × (worker ≤ length self.now.journals.items) }
        ensures no { result ≡ false → (1 ≤ worker) × (worker ≤ length self.now.journals.items) → ⊥ }
    {
        1 <= worker && worker <= self.journals.len() as u64
    }

    /// Makes the run know so many lines, if it knew fewer.
    ///
    /// # Errors
    ///
    /// `AllocError` if there was no memory.
    pub fn grow(&mut self, alloc: Global, count: u64) -> Result<(), AllocError>
        ensures lines { OnOk result (length self.new.lines.items ≡ max (length self.old.lines.items) count) }
        ensures journals { self.new.journals ≡ self.old.journals }
        ensures fewer { length self.old.lines.items ≤ length self.new.lines.items }
    {
        for _line in self.lines.len() as u64..count {
            self.lines.push(Vec::new(alloc))?;
        }
        Ok(())
    }
}

/// Lists an intent of this worker for its line, if there is such a line.
fn list(lines: &mut Vec<Vec<AttemptId>>, worker: u64, entry: Entry) -> Result<(), AllocError>
    ensures many { length lines.new.items ≡ length lines.old.items }
    ensures stays { (line other serial : ℕ) → IsListed (map (λ line. line.items) lines.old.items) line other serial → IsListed (map (λ line. line.items) lines.new.items) line other serial }
    ensures listed { OnOk result (ListsIntent (map (λ line. line.items) lines.new.items) worker entry) }
{
    let Entry::Intent { serial, line, .. } = entry else {
        return Ok(());
    };
    if line == 0 || line > lines.len() as u64 {
        return Ok(());
    }
    lines[(line - 1) as usize].push(AttemptId { worker, serial })?;
    Ok(())
}

/// Returns the attempts that are listed for a line.
fn listed_for(lines: &[Vec<AttemptId>], line: u64) -> &[AttemptId]
    ensures { result.now ≡ listed (map (λ line. line.items) lines.now) line }
{
    if line == 0 || line > lines.len() as u64 {
        return &[];
    }
    &lines[(line - 1) as usize]
}
