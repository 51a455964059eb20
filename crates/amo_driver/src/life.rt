//! A process with the part of its journal that it needs, turn by turn.
ghost use Rattle.std.specs.Prelude.{◌≡◌, ◌<◌, ◌-◌, ◌^◌, false, Ok, None, IfOk, IfErr, OnOk};
ghost use Rattle.amo_params.specs.Givens.{IsWorker};
ghost use Rattle.amo_process.specs.Stepped.{access_of, is_refused};
ghost use Rattle.amo_process.specs.declared.access.Access.TheVariants.{Load, Store};
ghost use Rattle.amo_driver.specs.declared.answer.Way.TheVariants.{Go, Leave};
ghost use Rattle.amo_driver.specs.Stage.{Going, Intending, Performing, Noting};
ghost use Rattle.amo_driver.specs.Course.{stage_replied, first_stage};
ghost use Rattle.amo_driver.specs.Standing.{Counts, DoesMore};
ghost use Rattle.amo_driver.specs.Stops.{HaltsAt};
ghost use Rattle.amo_driver.specs.Life.{IsGoing, HasHeard, TurnsTo};

use crate::answer::{Heard, JobResult, Reply, Way};
use crate::outside::Outside;
use crate::stop::{LifeEnd, Stop};
use amo_params::Givens;
use amo_process::{Access, NoSuchNumber, Process};
use std::alloc::{AllocError, Global};

/// A process, the serial number of its next intent, and the wish whether it goes on.
#[derive(Drop)]
pub(crate) struct Life {
    process: Process,
    next: u64,
    way: Way,
}

impl Life {
    /// Returns a process of worker p that has done nothing, in whose journal the next intent has
    /// this serial number.
    pub(crate) fn new(
        alloc: Global,
        givens: Givens,
        p: u32,
        serial: u64,
    ) -> Result<Life, AllocError>
        requires worker { IsWorker givens p }
        ensures stage { IfOk result (λ l. Going l.next l.process l.way ≡ first_stage givens p serial) }
        ensures goes { IfOk result (λ l. is_refused l.process.standing ≡ false) }
    {
        let process = Process::new(alloc, givens, p)?;
        Ok(Life {
            process,
            next: serial,
            way: Way::Go,
        })
    }

    /// Makes the next access of the process, and the calls that are due before the one after.
    pub(crate) fn turn<O: Outside>(&mut self, outside: &mut O) -> Result<Option<LifeEnd>, Stop>
        requires goes { IsGoing (O.stands outside.old) self.old }
        ensures turns { IfOk result (λ end. TurnsTo (O.stands outside.new) self.new end) }
        ensures grows { result ≡ Ok None → DoesMore 1 (O.has_done outside.old) (O.has_done outside.new) }
        ensures stops { IfErr result (λ e. HaltsAt (O.stands outside.new) e) }
    {
        match self.process.want() {
            Access::Load(word) => self.load(word, outside)?,
            Access::Store(word, value) => self.store(word, value, outside)?,
            Access::Nothing => return Ok(Some(LifeEnd::Over)),
        }
        self.settle(outside)
    }

    /// Makes the calls that are due between an access that was made and the next.
    fn settle<O: Outside>(&mut self, outside: &mut O) -> Result<Option<LifeEnd>, Stop>
        requires heard { HasHeard (O.stands outside.old) self.old }
        ensures turns { IfOk result (λ end. TurnsTo (O.stands outside.new) self.new end) }
        ensures grows { result ≡ Ok None → DoesMore 0 (O.has_done outside.old) (O.has_done outside.new) }
        ensures stops { IfErr result (λ e. HaltsAt (O.stands outside.new) e) }
    {
        match self.way {
            Way::Go => self.attend(outside),
            Way::Leave => self.leave(outside),
        }
    }

    /// Loads this word, and gives the process its value.
    fn load<O: Outside>(&mut self, word: u64, outside: &mut O) -> Result<(), Stop>
        requires goes { IsGoing (O.stands outside.old) self.old }
        requires wanted { access_of self.old.process.givens self.old.process.number self.old.process.standing ≡ Load word }
        ensures done { OnOk result (HasHeard (O.stands outside.new) self.new) }
        ensures grows { OnOk result (Counts (O.has_done outside.old) (O.has_done outside.new)) }
        ensures stops { IfErr result (λ e. HaltsAt (O.stands outside.new) e) }
    {
        let Ok(value) = outside.load(word) else {
            return Err(Stop::Failed);
        };
        match self.process.told(value) {
            Ok(()) => Ok(()),
            Err(NoSuchNumber) => Err(Stop::NoSuchNumber(word, value)),
        }
    }

    /// Stores this value to this word, and lets the process know.
    fn store<O: Outside>(&mut self, word: u64, value: u64, outside: &mut O) -> Result<(), Stop>
        requires goes { IsGoing (O.stands outside.old) self.old }
        requires wanted { access_of self.old.process.givens self.old.process.number self.old.process.standing ≡ Store word value }
        ensures done { OnOk result (HasHeard (O.stands outside.new) self.new) }
        ensures grows { OnOk result (Counts (O.has_done outside.old) (O.has_done outside.new)) }
        ensures stops { IfErr result (λ e. HaltsAt (O.stands outside.new) e) }
    {
        let Ok(()) = outside.store(word, value) else {
            return Err(Stop::Failed);
        };
        self.process.stored();
        Ok(())
    }

    /// Leaves, if the worker may.
    fn leave<O: Outside>(&self, outside: &mut O) -> Result<Option<LifeEnd>, Stop>
        requires heard { HasHeard (O.stands outside.old) self.now }
        requires way { self.now.way ≡ Leave }
        ensures turns { IfOk result (λ end. TurnsTo (O.stands outside.new) self.now end) }
        ensures grows { result ≡ Ok None → DoesMore 0 (O.has_done outside.old) (O.has_done outside.new) }
        ensures stops { IfErr result (λ e. HaltsAt (O.stands outside.new) e) }
    {
        if !self.process.may_leave() {
            return Ok(None);
        }
        let word = self.process.number() as u64;
        let Ok(()) = outside.store(word, 0) else {
            return Err(Stop::Failed);
        };
        Ok(Some(LifeEnd::Left))
    }

    /// Has the job performed that the process is to perform, and reports the job that it found in
    /// its hand.
    fn attend<O: Outside>(&mut self, outside: &mut O) -> Result<Option<LifeEnd>, Stop>
        requires heard { HasHeard (O.stands outside.old) self.old }
        requires way { self.old.way ≡ Go }
        ensures turns { IfOk result (λ end. TurnsTo (O.stands outside.new) self.new end) }
        ensures grows { result ≡ Ok None → DoesMore 0 (O.has_done outside.old) (O.has_done outside.new) }
        ensures stops { IfErr result (λ e. HaltsAt (O.stands outside.new) e) }
    {
        if let Some(job) = self.process.to_perform() {
            return self.hand_over(job, outside);
        }
        if let Some(job) = self.process.in_doubt() {
            let Ok(()) = outside.found(job) else {
                return Err(Stop::Failed);
            };
        }
        Ok(None)
    }

    /// Puts the intent, and then hands the job over to the partner, if it may be handed over.
    fn hand_over<O: Outside>(&mut self, job: u32, outside: &mut O) -> Result<Option<LifeEnd>, Stop>
        requires claimed { O.stands outside.old (Intending self.old.next self.old.process job) }
        requires fine { is_refused self.old.process.standing ≡ false }
        ensures turns { IfOk result (λ end. TurnsTo (O.stands outside.new) self.new end) }
        ensures grows { result ≡ Ok None → DoesMore 0 (O.has_done outside.old) (O.has_done outside.new) }
        ensures stops { IfErr result (λ e. HaltsAt (O.stands outside.new) e) }
    {
        if self.next == u64::MAX {
            return Err(Stop::NoSerial);
        }
        let Ok(()) = outside.intend(self.next, job) else {
            return Err(Stop::Failed);
        };
        let Ok(clear) = outside.clear(self.next, job) else {
            return Err(Stop::Failed);
        };
        if clear {
            self.perform(job, outside)
        } else {
            self.note(JobResult::Unbegun, Way::Go, outside)
        }
    }

    /// Has the partner perform the job, which may be handed over.
    fn perform<O: Outside>(&mut self, job: u32, outside: &mut O) -> Result<Option<LifeEnd>, Stop>
        requires cleared { O.stands outside.old (Performing self.old.next self.old.process job) }
        requires fine { is_refused self.old.process.standing ≡ false }
        requires room { self.old.next < 2 ^ 64 - 1 }
        ensures turns { IfOk result (λ end. TurnsTo (O.stands outside.new) self.new end) }
        ensures grows { result ≡ Ok None → DoesMore 0 (O.has_done outside.old) (O.has_done outside.new) }
        ensures stops { IfErr result (λ e. HaltsAt (O.stands outside.new) e) }
    {
        let Ok(reply) = outside.perform(self.next, job) else {
            return Err(Stop::Failed);
        };
        self.hear(reply, outside)
    }

    /// Takes the reply on the intent.
    fn hear<O: Outside>(&mut self, reply: Reply, outside: &mut O) -> Result<Option<LifeEnd>, Stop>
        requires performed { O.stands outside.old (stage_replied self.old.next self.old.process reply) }
        requires fine { is_refused self.old.process.standing ≡ false }
        requires room { self.old.next < 2 ^ 64 - 1 }
        ensures turns { IfOk result (λ end. TurnsTo (O.stands outside.new) self.new end) }
        ensures grows { result ≡ Ok None → DoesMore 0 (O.has_done outside.old) (O.has_done outside.new) }
        ensures stops { IfErr result (λ e. HaltsAt (O.stands outside.new) e) }
    {
        let heard = reply.heard_of(self.next)?;
        match heard {
            Heard::Ended(answer, way) => self.note(answer, way, outside),
            Heard::Runs(way) => {
                self.next += 1;
                self.way = way;
                Ok(None)
            }
            Heard::Silence => Ok(Some(LifeEnd::Cut(self.next))),
        }
    }

    /// Notes the answer.
    fn note<O: Outside>(
        &mut self,
        answer: JobResult,
        way: Way,
        outside: &mut O,
    ) -> Result<Option<LifeEnd>, Stop>
        requires answered { O.stands outside.old (Noting self.old.next self.old.process answer way) }
        requires fine { is_refused self.old.process.standing ≡ false }
        requires room { self.old.next < 2 ^ 64 - 1 }
        ensures turns { IfOk result (λ end. TurnsTo (O.stands outside.new) self.new end) }
        ensures grows { result ≡ Ok None → DoesMore 0 (O.has_done outside.old) (O.has_done outside.new) }
        ensures stops { IfErr result (λ e. HaltsAt (O.stands outside.new) e) }
    {
        let Ok(()) = outside.note(self.next, answer) else {
            return Err(Stop::Failed);
        };
        self.next += 1;
        self.way = way;
        Ok(None)
    }
}
