//! A worker in a round: its registers, its journal, what it has read, and its runner.
ghost use Rattle.std.specs.Prelude.{◌≡◌, false, map, Some, Ok, IfOk, OnOk, OnErr};
ghost use Rattle.amo_host.specs.Calls.{Fell, HasPaid, Pay, ReadOn};
ghost use Rattle.amo_host.specs.Protocol.{line_at, Lives, MayCall, Moves};
ghost use Rattle.amo_worker_life.specs.Where.{broken, me_of, IsUnread, WorksAt};
ghost use Rattle.amo_worker_life.specs.declared.halt.Halt.TheVariants.{Host as HostFailed, Memory};
ghost use Rattle.amo_worker_life.specs.declared.halt.Health.TheVariants.{Lost};
ghost use Rattle.amo_worker_life.specs.Reading.{logs_of, Adds, IsClearing, ReadsAll, ReadsOne};

use crate::halt::{Halt, Health};
use crate::outcome::outcome_entry;
use crate::worker::Worker;
use amo_driver::{Failed, JobResult, Outside, Reply};
use amo_host::{Host, LogFile};
use amo_params::MAX_WORKERS;
use amo_run_log::{AttemptId, Entry, ReadLogs};
use amo_runner_protocol::perform_text;
use std::alloc::AllocError;

/// A worker in a round.
#[derive(Drop)]
pub struct InRound<H: Host> {
    pub worker: Worker<H>,
    /// The number of the line of each job, in order.
    pub lines: Vec<u64>,
    /// The answers and journals, as far as they were read.
    pub logs: ReadLogs,
}

impl<H: Host> InRound<H> {
    /// Returns the worker, which makes no further call.
    pub(crate) fn into_worker(self) -> Worker<H>
        ensures { result ≡ self.worker }
    {
        let InRound { worker, .. } = self;
        worker
    }

    /// Remembers that a call of the host has failed.
    fn breaks(&mut self) -> Failed
        ensures halt { self.new.worker.halt ≡ Some HostFailed }
        ensures host { self.new.worker.host ≡ self.old.worker.host }
        ensures health { self.new.worker.health ≡ broken self.old.worker.health }
        ensures number { self.new.worker.number ≡ self.old.worker.number }
        ensures jobs { self.new.worker.jobs ≡ self.old.worker.jobs }
        ensures lines { self.new.lines ≡ self.old.lines }
        ensures logs { self.new.logs ≡ self.old.logs }
    {
        self.worker.halt = Some(Halt::Host);
        if self.worker.health == Health::Fine {
            self.worker.health = Health::Broken;
        }
        Failed
    }

    /// Returns the line of a job, if the round has the job.
    fn line_of(&self, job: u32) -> Option<u64>
        ensures { result ≡ line_at self.now.lines.items job }
    {
        if job >= 1 && job as usize <= self.lines.len() {
            Some(self.lines[job as usize - 1])
        } else {
            None
        }
    }
}

impl<H: Host> Outside for InRound<H> {
    ghost stands = { λ w. WorksAt (H.stands w.worker.host) (me_of w.worker.number w.worker.jobs) w.lines.items (logs_of w.logs) w.worker.health w.worker.halt };

    ghost has_done = { λ _ _. Unit {0} };

    fn load(&mut self, word: u64) -> Result<u64, Failed> {
        match self.worker.host.load(word) {
            Ok(value) => Ok(value),
            Err(_) => Err(self.breaks()),
        }
    }

    fn store(&mut self, word: u64, value: u64) -> Result<(), Failed> {
        match self.worker.host.store(word, value) {
            Ok(()) => Ok(()),
            Err(_) => Err(self.breaks()),
        }
    }

    fn found(&mut self, job: u32) -> Result<(), Failed> {
        match self.worker.host.pass_over(job) {
            Ok(()) => Ok(()),
            Err(_) => Err(self.breaks()),
        }
    }

    fn intend(&mut self, serial: u64, job: u32) -> Result<(), Failed> {
        let Some(line) = self.line_of(job) else {
            return Err(self.worker.fails(Halt::NoLine));
        };
        let time = self.worker.host.now();
        match self.worker.host.put(Entry::Intent { serial, line, time }) {
            Ok(()) => {
                self.worker.serial = serial.saturating_add(1);
                Ok(())
            }
            Err(_) => Err(self.worker.fails(Halt::Host)),
        }
    }

    // If the logs can't be read on, the line isn't handed over. Its attempt is recorded as not
    // started, if the journal still takes that.
    fn clear(&mut self, serial: u64, job: u32) -> Result<bool, Failed> {
        let Some(line) = self.line_of(job) else {
            return Err(self.worker.fails(Halt::NoLine));
        };
        if !self.read_all(serial, job)? {
            let unbegun = outcome_entry(serial, 0, JobResult::Unbegun);
            let _ = self.worker.host.put(unbegun);
            self.worker.health = Health::Lost;
            return Err(Failed);
        }
        let worker = self.worker.number;
        let own = AttemptId { worker, serial };
        match self.logs.standing(own, line) {
            None => Ok(true),
            Some(other) => {
                self.worker.host.tell_taken(line, other);
                Ok(false)
            }
        }
    }

    fn perform(&mut self, serial: u64, job: u32) -> Result<Reply, Failed> {
        let Some(line) = self.line_of(job) else {
            return Err(self.worker.fails(Halt::NoLine));
        };
        let Some(text) = self.worker.jobs.jobs().line(line) else {
            return Err(self.worker.fails(Halt::NoLine));
        };
        let Ok(said) = perform_text(self.worker.alloc, serial, line, text) else {
            return Err(self.worker.fails(Halt::Memory));
        };
        match self.worker.ask(&said) {
            Ok(reply) => Ok(reply),
            Err(_) => Err(self.breaks()),
        }
    }

    // It is appended with the next attempt, or once the work in the round ends.
    fn note(&mut self, serial: u64, answer: JobResult) -> Result<(), Failed> {
        let time = self.worker.host.now();
        match self.worker.host.owe(outcome_entry(serial, time, answer)) {
            Ok(()) => Ok(()),
            Err(_) => Err(self.worker.fails(Halt::Host)),
        }
    }
}

impl<H: Host> InRound<H> {
    /// Appends what this worker owes, after the last call that was due.
    ///
    /// # Errors
    /// `Failed` if it can't be appended. Then nothing more is called.
    pub(crate) fn pay(&mut self) -> Result<(), Failed>
        requires { MayCall (H.stands self.old.worker.host) Pay }
        ensures paid { OnOk result (Moves (H.stands self.old.worker.host) (H.stands self.new.worker.host) HasPaid) }
        ensures fails { OnErr result (Moves (H.stands self.old.worker.host) (H.stands self.new.worker.host) (Fell Pay)) }
        ensures halt { OnErr result (self.new.worker.halt ≡ Some HostFailed) }
        ensures lives { Lives (H.stands self.new.worker.host) }
        ensures health { OnOk result (self.new.worker.health ≡ self.old.worker.health) }
        ensures number { self.new.worker.number ≡ self.old.worker.number }
        ensures jobs { self.new.worker.jobs ≡ self.old.worker.jobs }
        ensures lines { self.new.lines ≡ self.old.lines }
        ensures logs { self.new.logs ≡ self.old.logs }
    {
        match self.worker.host.pay() {
            Ok(()) => Ok(()),
            Err(_) => Err(self.worker.fails(Halt::Host)),
        }
    }

    /// Reads the answers and all journals on, in this order, and returns whether they could be
    /// read.
    ///
    /// # Errors
    /// `Failed` if there was no memory for what was read. Then nothing more is called.
    fn read_all(&mut self, serial: u64, job: u32) -> Result<bool, Failed>
        requires asks { IsClearing (H.stands self.old.worker.host) (me_of self.old.worker.number self.old.worker.jobs) self.old.lines.items serial job (logs_of self.old.logs) }
        ensures read { IfOk result (λ read. ReadsAll read (H.stands self.old.worker.host) (H.stands self.new.worker.host) (me_of self.old.worker.number self.old.worker.jobs) self.old.lines.items serial job (logs_of self.old.logs) (logs_of self.new.logs)) }
        ensures health { IfOk result (λ read. self.new.worker.health ≡ self.old.worker.health) }
        ensures fails { OnErr result ((self.new.worker.health ≡ Lost) × Lives (H.stands self.new.worker.host)) }
        ensures unread { result ≡ Ok false → IsUnread self.new.worker.halt }
        ensures memory { OnErr result (self.new.worker.halt ≡ Some Memory) }
        ensures number { self.new.worker.number ≡ self.old.worker.number }
        ensures jobs { self.new.worker.jobs ≡ self.old.worker.jobs }
        ensures lines { self.new.lines ≡ self.old.lines }
    {
        if !self.read_one(LogFile::Answers)? {
            return Ok(false);
        }
        for p in 0..MAX_WORKERS as u64 {
            if !self.read_one(LogFile::Journal(p + 1))? {
                return Ok(false);
            }
        }
        Ok(true)
    }

    /// Reads one log on, and returns whether it could be read.
    ///
    /// # Errors
    /// `Failed` if there was no memory for what was read. Then nothing more is called.
    fn read_one(&mut self, log: LogFile) -> Result<bool, Failed>
        requires { MayCall (H.stands self.old.worker.host) (ReadOn log) }
        ensures read { IfOk result (λ read. ReadsOne read (H.stands self.old.worker.host) (H.stands self.new.worker.host) log (logs_of self.old.logs) (logs_of self.new.logs)) }
        ensures health { IfOk result (λ read. self.new.worker.health ≡ self.old.worker.health) }
        ensures fails { OnErr result ((self.new.worker.health ≡ Lost) × Lives (H.stands self.new.worker.host)) }
        ensures unread { result ≡ Ok false → IsUnread self.new.worker.halt }
        ensures memory { OnErr result (self.new.worker.halt ≡ Some Memory) }
        ensures number { self.new.worker.number ≡ self.old.worker.number }
        ensures jobs { self.new.worker.jobs ≡ self.old.worker.jobs }
        ensures lines { self.new.lines ≡ self.old.lines }
    {
        let Ok(texts) = self.worker.host.read_on(log) else {
            self.worker.halt = Some(Halt::Host);
            return Ok(false);
        };
        match add(&mut self.logs, log, &texts) {
            Ok(true) => Ok(true),
            Ok(false) => {
                self.worker.halt = Some(Halt::Unread(log));
                Ok(false)
            }
            Err(_) => Err(self.worker.fails(Halt::Memory)),
        }
    }
}

/// Adds these texts to what was read of a log, and returns whether they can follow it.
pub(crate) fn add(logs: &mut ReadLogs, log: LogFile, texts: &[Vec<u8>]) -> Result<bool, AllocError>
    ensures { IfOk result (λ added. Adds added (logs_of logs.old) log (map (λ text. text.items) texts.now) (logs_of logs.new)) }
{
    match log {
        LogFile::Answers => logs.read_answers(texts),
        LogFile::Journal(worker) => logs.read_journal(worker, texts),
    }
}
