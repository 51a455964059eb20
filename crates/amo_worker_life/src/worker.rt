//! A worker's process: its host, the lines of its run, and what its runner said last.
ghost use Rattle.std.specs.Prelude.{◌≡◌, ◌||◌, ℕ, List, Option, None, Some, true, false, option_map, IfOk, OnErr};
ghost use Rattle.amo_driver.specs.Standing.{MayCall as MayTry};
ghost use Rattle.amo_driver.specs.declared.model.Try.TheVariants.{Ask, Note};
ghost use Rattle.amo_host.specs.Calls.{Say, Heard, Fell};
ghost use Rattle.amo_host.specs.Protocol.{Lives, MayCall, Moves};
ghost use Rattle.amo_runner_protocol.specs.Lines.{reply_heard};
ghost use Rattle.amo_worker_life.specs.Where.{me_of, AsksAt, dismisses, leaves_running};
ghost use Rattle.amo_worker_life.specs.declared.halt.Health.TheVariants.{Fine, Broken, Lost};

use crate::halt::{Halt, Health};
use crate::outcome::outcome_entry;
use amo_driver::{Failed, JobResult, Past, Reply, Way};
use amo_host::Host;
use amo_run_files::HashedJobs;
use amo_run_log::ReadLogs;
use amo_runner_protocol::{reply_in, was_text};
use std::alloc::Global;

/// A worker's process. After a call has failed, `halt` says why.
#[derive(Drop)]
pub struct Worker<H: Host> {
    pub host: H,
    pub alloc: Global,
    /// Which worker it is, 1 to 16.
    pub number: u64,
    /// The lines that the run knows.
    pub jobs: HashedJobs,
    /// The answers and journals, as far as it has read them in earlier rounds. `None` before the
    /// first round, and in a round.
    pub logs: Option<ReadLogs>,
    /// The number of the round that it has joined last.
    pub joined: Option<u64>,
    /// The serial number of its next attempt.
    pub serial: u64,
    /// True if the runner's last reply was that this worker must leave.
    pub is_dismissed: bool,
    /// True if an attempt of this worker still runs, by what its runner has replied.
    pub has_running: bool,
    pub halt: Option<Halt>,
    pub health: Health,
}

impl<H: Host> Worker<H> {
    /// Returns a worker that has called nothing yet.
    pub fn new(host: H, alloc: Global, number: u64, jobs: HashedJobs) -> Worker<H>
        ensures host { result.host ≡ host }
        ensures number { result.number ≡ number }
        ensures jobs { result.jobs ≡ jobs }
        ensures logs { result.logs ≡ None }
        ensures health { result.health ≡ Fine }
        ensures dismissed { result.is_dismissed ≡ false }
        ensures running { result.has_running ≡ false }
    {
        Worker {
            host,
            alloc,
            number,
            jobs,
            logs: None,
            joined: None,
            serial: 1,
            is_dismissed: false,
            has_running: false,
            halt: None,
            health: Health::Fine,
        }
    }

    /// Remembers why nothing more is called.
    pub(crate) fn fails(&mut self, halt: Halt) -> Failed
        ensures halt { self.new.halt ≡ Some halt }
        ensures host { self.new.host ≡ self.old.host }
        ensures health { self.new.health ≡ Lost }
        ensures number { self.new.number ≡ self.old.number }
        ensures jobs { self.new.jobs ≡ self.old.jobs }
        ensures logs { self.new.logs ≡ self.old.logs }
    {
        self.halt = Some(halt);
        self.health = Health::Lost;
        Failed
    }

    /// Says a line to the runner, and returns its reply.
    ///
    /// # Errors
    /// `Failed` if the host's call failed.
    pub(crate) fn ask(&mut self, said: &[u8]) -> Result<Reply, Failed>
        requires { MayCall (H.stands self.old.host) (Say said.now) }
        ensures heard { IfOk result (λ reply. (heard : Option (List ℕ)) × (reply ≡ reply_heard heard) × Moves (H.stands self.old.host) (H.stands self.new.host) (Heard said.now heard)) }
        ensures fails { OnErr result (Moves (H.stands self.old.host) (H.stands self.new.host) (Fell (Say said.now))) }
        ensures dismissed { IfOk result (λ reply. self.new.is_dismissed ≡ dismisses reply) }
        ensures running { IfOk result (λ reply. self.new.has_running ≡ (self.old.has_running || leaves_running reply)) }
        ensures health { self.new.health ≡ self.old.health }
        ensures number { self.new.number ≡ self.old.number }
        ensures jobs { self.new.jobs ≡ self.old.jobs }
    {
        match self.host.say(said) {
            Ok(heard) => {
                let reply = reply_of(&heard);
                self.is_dismissed = dismisses(reply);
                self.has_running = self.has_running || leaves_running(reply);
                Ok(reply)
            }
            Err(_) => {
                self.halt = Some(Halt::Host);
                Err(Failed)
            }
        }
    }
}

/// Returns the reply that this line is, without its end. No line is `Closed`.
fn reply_of(heard: &Option<Vec<u8>>) -> Reply
    ensures { result ≡ reply_heard (option_map (λ line. line.items) heard.now) }
{
    match heard {
        Some(line) => reply_in(line),
        None => Reply::Closed,
    }
}

/// Returns true if by this reply the worker must leave.
fn dismisses(reply: Reply) -> bool
    ensures { result ≡ dismisses reply }
{
    match reply {
        Reply::Answered(_, _, Way::Leave) | Reply::Running(_, Way::Leave) => true,
        Reply::Answered(_, _, Way::Go) | Reply::Running(_, Way::Go) => false,
        Reply::Garbled | Reply::Closed => false,
    }
}

/// Returns true if a reply says that the attempt still runs.
fn leaves_running(reply: Reply) -> bool
    ensures { result ≡ leaves_running reply }
{
    match reply {
        Reply::Running(..) => true,
        Reply::Answered(..) | Reply::Garbled | Reply::Closed => false,
    }
}

impl<H: Host> Past for Worker<H> {
    ghost stands = { λ w. AsksAt (H.stands w.host) (me_of w.number w.jobs) w.health w.halt };

    fn was(&mut self, serial: u64, line: u64) -> Result<Reply, Failed> {
        let Some(text) = self.jobs.jobs().line(line) else {
            return Err(self.fails(Halt::NoLine));
        };
        let Ok(said) = was_text(self.alloc, serial, line, text) else {
            return Err(self.fails(Halt::Memory));
        };
        match self.ask(&said) {
            Ok(reply) => Ok(reply),
            Err(_) => Err(self.fails(Halt::Host)),
        }
    }

    fn note(&mut self, serial: u64, answer: JobResult) -> Result<(), Failed> {
        let time = self.host.now();
        match self.host.put(outcome_entry(serial, time, answer)) {
            Ok(()) => Ok(()),
            Err(_) => Err(self.fails(Halt::Host)),
        }
    }
}
