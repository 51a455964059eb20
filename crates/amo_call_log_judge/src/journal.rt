//! A worker's journal and its process.
ghost use Rattle.std.specs.Prelude.{◌≡◌, ◌≤◌, ◌+◌, ℕ, [], ◌∷◌, ◌++◌, true, false, length, IfNone, IfSome, OnOk};
ghost use Rattle.amo_params.specs.declared.limits.TheConstants.{MAX_WORKERS};
ghost use Rattle.amo_call_log_judge.specs.Rules.{first_standing, has_seen, has_serial, holds_serial, is_other, stands};
ghost use Rattle.amo_call_log_judge.specs.Seen.{with_opened, IsFresh};
ghost use Rattle.amo_call_log_judge.specs.declared.journal.Stage.TheVariants.{Clearing};

use crate::event::Attempt;
use amo_params::MAX_WORKERS;
use std::alloc::{AllocError, Global};
use std::collections::VecDeque;

/// The work of the process of a worker. One process at a time has the journal.
#[derive(Clone, Copy, Debug, PartialEq, Eq)]
pub(crate) enum Stage {
    /// No process has the journal.
    Away,
    /// It attempts no line.
    Free,
    /// Its intent of this line is acknowledged, under this serial number.
    Clearing { serial: u64, line: u64 },
}

/// An intent that is in a journal.
#[derive(Clone, Copy, Debug, PartialEq, Eq)]
pub(crate) struct Intent {
    pub(crate) line: u64,
    /// Some record says that its attempt was not begun, or not done.
    pub(crate) opened: bool,
}

/// A journal, the process that has it, and the journals at which that process has looked since its
/// intent, the last one first.
#[derive(Drop)]
pub(crate) struct Journal {
    pub(crate) kept: Vec<Intent>,
    pub(crate) stage: Stage,
    pub(crate) seen: VecDeque<u64>,
}

impl Journal {
    /// Returns an empty journal that no process has.
    pub(crate) fn new(alloc: Global) -> Journal
        ensures { IsFresh result }
    {
        Journal {
            kept: Vec::new(alloc),
            stage: Stage::Away,
            seen: VecDeque::new(alloc),
        }
    }

    /// Sets what the process is at.
    pub(crate) fn set_stage(&mut self, stage: Stage)
        ensures kept { self.new.kept.items ≡ self.old.kept.items }
        ensures stage { self.new.stage ≡ stage }
    {
        self.stage = stage;
    }

    /// Adds an intent of this line.
    pub(crate) fn keep(&mut self, line: u64) -> Result<(), AllocError>
        ensures kept { OnOk result (self.new.kept.items ≡ self.old.kept.items ++ record { line = line; opened = false } ∷ []) }
        ensures stage { self.new.stage ≡ self.old.stage }
        ensures seen { self.new.seen.items ≡ self.old.seen.items }
    {
        let opened = false;
        self.kept.push(Intent { line, opened })?;
        Ok(())
    }

    /// Adds an intent of this line, which the process has to clear.
    pub(crate) fn intend(&mut self, alloc: Global, line: u64) -> Result<(), AllocError>
        ensures kept { OnOk result (self.new.kept.items ≡ self.old.kept.items ++ record { line = line; opened = false } ∷ []) }
        ensures stage { OnOk result (self.new.stage ≡ Clearing (length self.old.kept.items + 1) line) }
        ensures seen { OnOk result (self.new.seen.items ≡ []) }
    {
        self.keep(line)?;
        let serial = self.kept.len() as u64;
        self.stage = Stage::Clearing { serial, line };
        self.seen = VecDeque::new(alloc);
        Ok(())
    }

    /// Notes that the process has looked at the journal of this worker.
    pub(crate) fn look(&mut self, other: u64) -> Result<(), AllocError>
        ensures kept { self.new.kept.items ≡ self.old.kept.items }
        ensures stage { self.new.stage ≡ self.old.stage }
        ensures seen { OnOk result (self.new.seen.items ≡ other ∷ self.old.seen.items) }
    {
        self.seen.push_front(other)?;
        Ok(())
    }

    /// Opens the attempt of this serial number.
    pub(crate) fn open(&mut self, serial: u64)
        ensures kept { self.new.kept.items ≡ with_opened self.old.kept.items serial }
        ensures stage { self.new.stage ≡ self.old.stage }
        ensures seen { self.new.seen.items ≡ self.old.seen.items }
    {
        if !self.has(serial) {
            return;
        }
        let line = self.kept[(serial - 1) as usize].line;
        let opened = true;
        self.kept[(serial - 1) as usize] = Intent { line, opened };
    }

    /// Returns true if the journal has an intent of this serial number.
    pub(crate) fn has(&self, serial: u64) -> bool
        ensures { result ≡ has_serial (length self.now.kept.items) serial }
    {
        1 <= serial && serial <= self.kept.len() as u64
    }

    /// Returns true if the process holds the attempt of this serial number.
    pub(crate) fn holds(&self, serial: u64) -> bool
        ensures { result ≡ holds_serial self.now.stage serial }
    {
        match self.stage {
            Stage::Away | Stage::Free => false,
            Stage::Clearing { serial: held, .. } => held == serial,
        }
    }

    /// Returns the serial number of the first attempt that stands against the attempt `own` at this
    /// line: it is another one, and not opened. The journal is that of `worker`.
    pub(crate) fn standing(&self, worker: u64, own: Attempt, line: u64) -> Option<u64>
        ensures { result ≡ first_standing worker own line 0 self.now.kept.items }
    {
        for (i, intent) in self.kept.iter().enumerate() {
            let serial = i as u64 + 1;
            if stands(worker, own, line, serial, *intent) {
                return Some(serial);
            }
        }
        None
    }

    /// Returns the first of the workers at whose journals the process has not looked.
    pub(crate) fn unseen(&self) -> Option<u64>
        ensures some { IfSome result (λ other. (other ≤ MAX_WORKERS) × (has_seen self.now.seen.items other ≡ false)) }
        ensures none { IfNone result ((other : ℕ) → other ≤ MAX_WORKERS → has_seen self.now.seen.items other ≡ true) }
    {
        for other in 0..MAX_WORKERS as u64 + 1 {
            if !self.seen.contains(&other) {
                return Some(other);
            }
        }
        None
    }
}

/// Returns true if this is another attempt than that of the worker and the serial number.
fn is_other(own: Attempt, worker: u64, serial: u64) -> bool
    ensures { result ≡ is_other own worker serial }
{
    own.worker != worker || own.serial != serial
}

/// Returns true if the intent, of this serial number in the journal of this worker, stands against
/// the attempt `own` at the line.
fn stands(worker: u64, own: Attempt, line: u64, serial: u64, intent: Intent) -> bool
    ensures { result ≡ stands worker own line serial intent }
{
    intent.line == line && !intent.opened && is_other(own, worker, serial)
}
