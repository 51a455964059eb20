//! How a worker's process takes its number: the lock on its journal, which it then recovers.
ghost use Rattle.std.specs.Prelude.{◌≡◌, map, option_map, IfOk, OnOk, OnErr};
ghost use Rattle.amo_driver.specs.Stage.{Asking};
ghost use Rattle.amo_host.specs.Phase.{Asks, Starts, Unborn, Guards, Settled as HasSettled};
ghost use Rattle.amo_host.specs.Protocol.{Lives};
ghost use Rattle.amo_host.specs.Starting.{intent_of, pending_of};
ghost use Rattle.amo_worker_life.specs.Halting.{Halts};
ghost use Rattle.amo_worker_life.specs.Reading.{logs_of};
ghost use Rattle.amo_worker_life.specs.Where.{me_of};
ghost use Rattle.amo_worker_life.specs.declared.halt.Health.TheVariants.{Fine};

use crate::halt::Halt;
use crate::worker::Worker;
use amo_driver::{Failed, Intent};
use amo_host::{Hold, Host, RunLock};
use amo_run_files::RoundFile;
use amo_run_log::{Attempt, Fault, pending, read_attempts};
use std::alloc::{AllocError, Global};

/// How often a lock is tried.
pub(crate) const TRIES: u32 = 100;

/// A worker's journal, once it is recovered.
#[derive(Drop)]
struct Settled {
    /// The file of the last round, if one was begun.
    last: Option<RoundFile>,
    /// The text of each append.
    texts: Vec<Vec<u8>>,
}

/// Takes the worker's number, recovers its journal, and returns the attempts that are pending in
/// it. The worker knows the lines of its run then.
///
/// The worker gets the lock on its own journal alone. Under it, it checks the folder, reads the
/// round header, recovers that journal by what the header counts, syncs the folder, and reads the
/// lines, in this order.
///
/// # Errors
/// `Failed`, and the worker's `halt` says why. `Held` if another process has the number.
pub fn take_number<H: Host>(worker: &mut Worker<H>) -> Result<Vec<Intent>, Failed>
    requires starts { H.stands worker.old.host (Starts worker.old.number Unborn) }
    requires fine { worker.old.health ≡ Fine }
    ensures asks { IfOk result (λ pending. H.stands worker.new.host (Asks (me_of worker.new.number worker.new.jobs) (Asking pending.items))) }
    ensures halts { OnErr result (Halts (H.stands worker.new.host) (me_of worker.new.number worker.new.jobs) (option_map logs_of worker.new.logs) worker.new.halt) }
    ensures lives { Lives (H.stands worker.new.host) }
    ensures fine { IfOk result (λ pending. worker.new.health ≡ Fine) }
    ensures logs { worker.new.logs ≡ worker.old.logs }
{
    worker.guard()?;
    let settled = worker.settle()?;
    worker.know(&settled)
}

impl<H: Host> Worker<H> {
    /// Takes the guard of the worker's number.
    ///
    /// # Errors
    /// `Failed` if a call failed, or if another process has the guard, however often it is tried.
    fn guard(&mut self) -> Result<(), Failed>
        requires starts { H.stands self.old.host (Starts self.old.number Unborn) }
        ensures guards { OnOk result (H.stands self.new.host (Starts self.new.number Guards)) }
        ensures halts { OnErr result (Halts (H.stands self.new.host) (me_of self.new.number self.new.jobs) (option_map logs_of self.new.logs) self.new.halt) }
        ensures lives { Lives (H.stands self.new.host) }
        ensures health { OnOk result (self.new.health ≡ self.old.health) }
        ensures logs { self.new.logs ≡ self.old.logs }
    {
        let lock = RunLock::Guard(self.number);
        for _try in 0..TRIES {
            match self.host.try_lock(lock, Hold::Exclusive) {
                Ok(true) => return Ok(()),
                Ok(false) => self.host.pause(),
                Err(_) => return Err(self.fails(Halt::Host)),
            }
        }
        Err(self.fails(Halt::Held(lock)))
    }

    /// Recovers the worker's journal under its guard, and syncs the folder, since the process that
    /// made the journal may have been killed before it did that.
    ///
    /// # Errors
    /// `Failed` if a call failed.
    fn settle(&mut self) -> Result<Settled, Failed>
        requires guards { H.stands self.old.host (Starts self.old.number Guards) }
        ensures settled { IfOk result (λ s. H.stands self.new.host (Starts self.new.number (HasSettled s.last (map (λ text. text.items) s.texts.items)))) }
        ensures halts { OnErr result (Halts (H.stands self.new.host) (me_of self.new.number self.new.jobs) (option_map logs_of self.new.logs) self.new.halt) }
        ensures lives { Lives (H.stands self.new.host) }
        ensures health { IfOk result (λ s. self.new.health ≡ self.old.health) }
        ensures logs { self.new.logs ≡ self.old.logs }
    {
        if self.host.check_folder().is_err() {
            return Err(self.fails(Halt::Host));
        }
        let Ok(last) = self.host.read_round() else {
            return Err(self.fails(Halt::Host));
        };
        let Ok(texts) = self.host.recover(last.as_ref()) else {
            return Err(self.fails(Halt::Host));
        };
        if self.host.sync_folder().is_err() {
            return Err(self.fails(Halt::Host));
        }
        Ok(Settled { last, texts })
    }

    /// Reads the lines of the run, and returns the attempts that the worker's journal has pending.
    ///
    /// # Errors
    /// `Failed` if a call failed, if there was no memory, or if the journal's appends can't follow
    /// each other.
    fn know(&mut self, settled: &Settled) -> Result<Vec<Intent>, Failed>
        requires settled { H.stands self.old.host (Starts self.old.number (HasSettled settled.now.last (map (λ text. text.items) settled.now.texts.items))) }
        ensures asks { IfOk result (λ pending. H.stands self.new.host (Asks (me_of self.new.number self.new.jobs) (Asking pending.items))) }
        ensures halts { OnErr result (Halts (H.stands self.new.host) (me_of self.new.number self.new.jobs) (option_map logs_of self.new.logs) self.new.halt) }
        ensures lives { Lives (H.stands self.new.host) }
        ensures health { IfOk result (λ pending. self.new.health ≡ self.old.health) }
        ensures logs { self.new.logs ≡ self.old.logs }
    {
        let last = settled.last.as_ref();
        if self.host.read_jobs(last, &mut self.jobs).is_err() {
            return Err(self.fails(Halt::Host));
        }
        let count = self.jobs.jobs().count();
        let attempts = match read_attempts(self.alloc, count, &settled.texts) {
            Ok(attempts) => attempts,
            Err(Fault::Memory) => return Err(self.fails(Halt::Memory)),
            Err(Fault::Refused(number)) => return Err(self.fails(Halt::Entry(number))),
        };
        match pending_of(self.alloc, &attempts) {
            Ok(pending) => Ok(pending),
            Err(_) => Err(self.fails(Halt::Memory)),
        }
    }
}

/// Returns the attempts that are pending among these, in order.
fn pending_of(alloc: Global, attempts: &[Attempt]) -> Result<Vec<Intent>, AllocError>
    ensures { IfOk result (λ pending. pending.items ≡ pending_of attempts.now) }
{
    let mut intents = Vec::new(alloc);
    for (serial, line) in pending(alloc, attempts)? {
        intents.push(Intent { serial, line })?;
    }
    Ok(intents)
}
