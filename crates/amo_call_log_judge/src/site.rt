//! The state after some events.
ghost use Rattle.std.specs.Prelude.{◌≡◌, ◌<◌, ◌+◌, length, IfOk, OnOk, Some};
ghost use Rattle.std.specs.List.{slice_get};
ghost use Rattle.amo_safety_by_journals.specs.Model.{first_site, Begins, Dies, Lands, Intends, Looks, HandsOver, Performs, Ends, Opens};
ghost use Rattle.amo_params.specs.declared.limits.TheConstants.{MAX_WORKERS};
ghost use Rattle.amo_call_log_judge.specs.Events.{attempt_of, event_of, handing_of};
ghost use Rattle.amo_call_log_judge.specs.Grammar.{MayStand};
ghost use Rattle.amo_call_log_judge.specs.Seen.{AreFresh, Follows, Releases, Shows};

use crate::event::{Attempt, Event, Handing};
use crate::journal::{Journal, Stage};
use amo_params::MAX_WORKERS;
use std::alloc::{AllocError, Global};
use std::collections::VecDeque;

/// The journals of the workers 0, 1 and so on, with their processes, the attempts that are alive,
/// and those that have performed their lines, the last one first.
#[derive(Drop)]
pub(crate) struct Site {
    pub(crate) journals: Vec<Journal>,
    pub(crate) alive: VecDeque<Handing>,
    pub(crate) performed: VecDeque<Handing>,
}

/// Returns so many journals without intents.
fn fresh_journals(alloc: Global) -> Result<Vec<Journal>, AllocError>
    ensures many { IfOk result (λ journals. length journals.items ≡ MAX_WORKERS + 1) }
    ensures fresh { IfOk result (λ journals. AreFresh journals.items) }
{
    let mut journals = Vec::new(alloc);
    for worker in 0..MAX_WORKERS + 1 {
        journals.push(Journal::new(alloc))?;
    }
    Ok(journals)
}

impl Site {
    /// Returns the state before all events.
    pub(crate) fn new(alloc: Global) -> Result<Site, AllocError>
        ensures { IfOk result (λ site. Shows site first_site) }
    {
        let journals = fresh_journals(alloc)?;
        Ok(Site {
            journals,
            alive: VecDeque::new(alloc),
            performed: VecDeque::new(alloc),
        })
    }

    /// Returns the journal of a worker.
    pub(crate) fn journal(&self, worker: u64) -> &Journal
        requires { worker < length self.now.journals.items }
        ensures { slice_get self.now.journals.items worker ≡ Some result.now }
    {
        &self.journals[worker as usize]
    }

    /// Has a process begin.
    fn begin(&mut self, worker: u64)
        requires { worker < length self.now.journals.items }
        ensures { Follows self.old (Begins worker) self.new }
    {
        self.journals[worker as usize].set_stage(Stage::Free);
    }

    /// Has the process die.
    fn die(&mut self, worker: u64)
        requires { worker < length self.now.journals.items }
        ensures { Follows self.old (Dies worker) self.new }
    {
        self.journals[worker as usize].set_stage(Stage::Away);
    }

    /// Adds an intent that has landed.
    fn land(&mut self, worker: u64, line: u64) -> Result<(), AllocError>
        requires { worker < length self.now.journals.items }
        ensures { OnOk result (Follows self.old (Lands worker line) self.new) }
    {
        self.journals[worker as usize].keep(line)?;
        Ok(())
    }

    /// Adds an acknowledged intent.
    fn intend(&mut self, alloc: Global, worker: u64, line: u64) -> Result<(), AllocError>
        requires { worker < length self.now.journals.items }
        ensures { OnOk result (Follows self.old (Intends worker line) self.new) }
    {
        self.journals[worker as usize].intend(alloc, line)?;
        Ok(())
    }

    /// Notes that the worker has looked at the other one's journal.
    fn look(&mut self, worker: u64, other: u64) -> Result<(), AllocError>
        requires { worker < length self.now.journals.items }
        ensures { OnOk result (Follows self.old (Looks worker other) self.new) }
    {
        self.journals[worker as usize].look(other)?;
        Ok(())
    }

    /// Has the worker hand over the attempt that it holds, of this serial number at this line.
    fn release(&mut self, worker: u64, serial: u64, line: u64) -> Result<(), AllocError>
        requires { worker < length self.now.journals.items }
        ensures { OnOk result (Releases self.old worker serial line self.new) }
    {
        let handing = Handing {
            worker,
            serial,
            line,
        };
        self.alive.push_front(handing)?;
        self.journals[worker as usize].set_stage(Stage::Free);
        Ok(())
    }

    /// Has the worker hand its attempt over.
    fn hand_over(&mut self, worker: u64) -> Result<(), AllocError>
        requires { worker < length self.now.journals.items }
        ensures { OnOk result (Follows self.old (HandsOver worker) self.new) }
    {
        let journal = self.journal(worker);
        match journal.stage {
            Stage::Away => Ok(()),
            Stage::Free => Ok(()),
            Stage::Clearing { serial, line } => self.release(worker, serial, line),
        }
    }

    /// Notes that the line of an attempt was performed.
    fn perform(&mut self, handing: Handing) -> Result<(), AllocError>
        ensures { OnOk result (Follows self.old (Performs (handing_of handing)) self.new) }
    {
        self.performed.push_front(handing)?;
        Ok(())
    }

    /// Removes the attempt at this place among those that are alive, if there is one.
    fn end(&mut self, place: u64)
        ensures { Follows self.old (Ends place) self.new }
    {
        if place >= self.alive.len() as u64 {
            return;
        }
        let _ended = self.alive.remove(place as usize);
    }

    /// Opens an attempt.
    fn open(&mut self, attempt: Attempt)
        requires { attempt.worker < length self.now.journals.items }
        ensures { Follows self.old (Opens (attempt_of attempt)) self.new }
    {
        self.journals[attempt.worker as usize].open(attempt.serial);
    }

    /// Makes the state the one after the next event. After an error the state isn't stated, and a
    /// caller drops it.
    pub(crate) fn apply(&mut self, alloc: Global, event: Event) -> Result<(), AllocError>
        requires workers { length self.now.journals.items ≡ MAX_WORKERS + 1 }
        requires stands { MayStand (event_of event) }
        ensures { OnOk result (Follows self.old (event_of event) self.new) }
    {
        match event {
            Event::Begins { worker } => {
                self.begin(worker);
                Ok(())
            }
            Event::Dies { worker } => {
                self.die(worker);
                Ok(())
            }
            Event::Lands { worker, line } => self.land(worker, line),
            Event::Intends { worker, line } => self.intend(alloc, worker, line),
            Event::Looks { worker, other } => self.look(worker, other),
            Event::HandsOver { worker } => self.hand_over(worker),
            Event::Performs(handing) => self.perform(handing),
            Event::Ends { place } => {
                self.end(place);
                Ok(())
            }
            Event::Opens(attempt) => {
                self.open(attempt);
                Ok(())
            }
        }
    }
}
