//! The contents of the answers and the journals of a run, as far as they were read.
ghost use Rattle.std.specs.Prelude.{◌≡◌, ◌≤◌, is_none, max, [], length, map, replicate, IfNone, IfOk, IfSome, OnOk};
ghost use Rattle.amo_run_log.specs.Clearance.{is_clear, IsClear, IsStanding};
ghost use Rattle.amo_run_log.specs.ReadLogs.{ReadsFindings, ReadsJournal};

use crate::append::Append;
use crate::attempts_by_line::AttemptsByLine;
use crate::clearance::AttemptId;
use crate::finding::Finding;
use crate::journal::Attempt;
use std::alloc::{AllocError, Global};

/// The findings and attempts in the answers and the journals of a run, as far as they were read.
#[derive(Drop)]
pub struct ReadLogs {
    findings: Vec<Finding>,
    attempts: AttemptsByLine,
}

impl ReadLogs {
    /// Returns answers and so many journals of which nothing was read, in a run of so many lines.
    ///
    /// # Errors
    ///
    /// `AllocError` if there was no memory.
    pub fn new(alloc: Global, journals: usize, count: u64) -> Result<ReadLogs, AllocError>
        ensures findings { IfOk result (λ made. made.findings.items ≡ []) }
        ensures journals { IfOk result (λ made. map (λ journal. journal.items) made.attempts.journals.items ≡ replicate journals []) }
        ensures lines { IfOk result (λ made. length made.attempts.lines.items ≡ count) }
    {
        let mut attempts = AttemptsByLine::new(alloc, journals)?;
        attempts.grow(alloc, count)?;
        Ok(ReadLogs {
            findings: Vec::new(alloc),
            attempts,
        })
    }

    /// Reads these texts of answers too, and returns true if each of them says a finding. If one
    /// doesn't, those before it may have been added.
    ///
    /// # Errors
    ///
    /// `AllocError` if there was no memory. Some of the texts may have been read.
    pub fn read_answers(&mut self, texts: &[Vec<u8>]) -> Result<bool, AllocError>
        ensures read { IfOk result (λ read. ReadsFindings read self.old.findings.items (map (λ text. text.items) texts.now) self.new.findings.items) }
        ensures attempts { self.new.attempts ≡ self.old.attempts }
    {
        for text in texts {
            let Some(finding) = Finding::read(text) else {
                return Ok(false);
            };
            self.findings.push(finding)?;
        }
        Ok(true)
    }

    /// Reads these texts of appends too, in the journal of this worker, and returns true if their
    /// entries may follow those that were read before. If they may not, some of them may have been
    /// noted.
    ///
    /// # Errors
    ///
    /// `AllocError` if there was no memory. Some of the texts may have been read.
    pub fn read_journal(&mut self, worker: u64, texts: &[Vec<u8>]) -> Result<bool, AllocError>
        ensures read { IfOk result (λ read. ReadsJournal (length self.old.attempts.lines.items) read (map (λ journal. journal.items) self.old.attempts.journals.items) worker (map (λ text. text.items) texts.now) (map (λ journal. journal.items) self.new.attempts.journals.items)) }
        ensures lines { length self.new.attempts.lines.items ≡ length self.old.attempts.lines.items }
        ensures findings { self.new.findings ≡ self.old.findings }
    {
        if !self.attempts.has_journal(worker) {
            return Ok(false);
        }
        for text in texts {
            let Some(append) = Append::read(text) else {
                return Ok(false);
            };
            if !self.attempts.note_append(worker, append)? {
                return Ok(false);
            }
        }
        Ok(true)
    }

    /// Makes the run know so many lines, if it knew fewer.
    ///
    /// # Errors
    ///
    /// `AllocError` if there was no memory.
    pub fn grow(&mut self, alloc: Global, count: u64) -> Result<(), AllocError>
        ensures lines { OnOk result (length self.new.attempts.lines.items ≡ max (length self.old.attempts.lines.items) count) }
        ensures journals { self.new.attempts.journals ≡ self.old.attempts.journals }
        ensures findings { self.new.findings ≡ self.old.findings }
        ensures fewer { length self.old.attempts.lines.items ≤ length self.new.attempts.lines.items }
    {
        self.attempts.grow(alloc, count)
    }

    /// Returns the first attempt, by worker and serial number, that stands against handing this
    /// line over by the attempt `own`: another attempt at the line that isn't opened. Returns
    /// `None` if the line is clear.
    pub fn standing(&self, own: AttemptId, line: u64) -> Option<AttemptId>
        ensures clear { IfNone result (IsClear self.now.findings.items (map (λ journal. journal.items) self.now.attempts.journals.items) own line) }
        ensures standing { IfSome result (IsStanding self.now.findings.items (map (λ journal. journal.items) self.now.attempts.journals.items) own line) }
        ensures exact { is_none result ≡ is_clear self.now.findings.items (map (λ journal. journal.items) self.now.attempts.journals.items) own line }
    {
        self.attempts.standing(&self.findings, own, line)
    }

    /// Returns the findings, in their order.
    pub fn findings(&self) -> &[Finding]
        ensures { result.now ≡ self.now.findings.items }
    {
        &self.findings
    }

    /// Returns the attempts of each journal, in order. The journals are those of the workers 1, 2
    /// and so on.
    pub fn journals(&self) -> &[Vec<Attempt>]
        ensures { result.now ≡ self.now.attempts.journals.items }
    {
        self.attempts.journals()
    }
}
