//! The state machine of a worker.
ghost use Rattle.std.specs.Prelude.{◌≡◌, ◌≤◌, ◌<◌, ◌+◌, ◌↔◌, ◌++◌, ◌∷◌, [], true, IfOk, length};
ghost use Rattle.std.specs.Vec.{vec_capacity};
ghost use Rattle.amo_kk.specs.declared.phase.Phase.{Phase};
ghost use Rattle.amo_kk.specs.declared.event.Shown.{Shown};
ghost use Rattle.amo_kk.specs.declared.phase.Phase.TheVariants.{Announcing, Trying, Reading, Claiming, Holding, Over, Left};
ghost use Rattle.std.specs.Option.{option_to_list};
ghost use Rattle.amo_sets.specs.Lists.{numbered};
ghost use Rattle.amo_sets.specs.Sets.{has};
ghost use Rattle.amo_params.specs.Givens.{IsJob, IsWorker, IsOther};
ghost use Rattle.amo_kk.specs.Choice.{first_record};
ghost use Rattle.amo_kk.specs.Record.{is_over, can_leave, jobs_in_hand};
ghost use Rattle.amo_kk.specs.Step.{want, is_load, is_store, record_after, record_after_leave, shown, MayLoad};
ghost use Rattle.amo_kk.specs.Fits.{WantFits};
ghost use Rattle.amo_kk.specs.Machine.{LocalView};

mod again;

use crate::event::Shown;
use crate::knowledge::Knowledge;
use crate::phase::{Phase, Want, next_other};
pub use again::NoSuchWords;
use amo_params::Givens;
use amo_sets::filled;
use std::alloc::{AllocError, Global};
use std::marker::Model;

/// `Local`: the state machine of one worker. It does no load or store itself.
///
/// `want` returns the one load or store that the worker makes next. The caller makes it, and calls
/// `told` with the value of a load, or `stored` after a store. A register must be loaded and stored
/// atomically, in an order that is the same for all workers (sequentially consistent).
///
/// Only `new` takes memory. No call blocks. A call takes constant time; a choice takes time in
/// proportion to `jobs / 64`.
///
/// # Examples
///
/// ```
/// use amo_kk::{Givens, Local, Shown, Want};
///
/// let givens = Givens::try_new(5, 2, 2)?;
/// let mut local = Local::new(rt.alloc(), givens, 2)?;
/// assert!(rt; local.want() == Want::StoreNext(3));
/// assert!(rt; local.stored() == Shown::Quiet);
/// assert!(rt; local.want() == Want::LoadNext(1));
/// assert!(rt; local.told(1) == Shown::Quiet); // worker 1 has announced job 1
/// assert!(rt; local.want() == Want::LoadDone(1, 1));
/// local.told(0); // and has done none
/// assert!(rt; local.want() == Want::StoreClaim(1, 3));
/// assert!(rt; local.stored() == Shown::Claimed(3));
/// assert!(rt; local.in_hand() == Some(3)); // perform job 3 now, and then:
/// assert!(rt; local.want() == Want::StoreDone(1, 3));
/// assert!(rt; local.stored() == Shown::Done(3));
/// assert_eq!(rt; local.dones(), [3].as_slice());
/// assert_eq!(rt; local.steps(), 5);
/// ```
#[derive(Drop)]
pub struct Local {
    givens: Givens,
    number: u32,
    phase: Phase,
    knowledge: Knowledge,
    fronts: Vec<u32>,
    claims: Vec<u32>,
    dones: Vec<u32>,
    steps: u64,
}

impl Model for Local {
    ghost use Rattle.std.specs.Vec.{vec_capacity};
    ghost use Rattle.amo_kk.specs.Machine.{LocalView, record_of, IsHeld};

    ghost Value = { LocalView };

    ghost view = { λ l. record {
      givens = l.givens;
      number = l.number;
      state = record_of l.phase l.knowledge l.fronts.items l.claims.items l.dones.items l.steps;
    } };

    ghost invariant = { λ l. IsHeld l.givens l.number (record_of l.phase l.knowledge l.fronts.items l.claims.items l.dones.items l.steps)
        l.knowledge.range (vec_capacity l.fronts) (vec_capacity l.claims) (vec_capacity l.dones) };
}

impl Local {
    /// Returns the machine of worker p before its first step. It takes all memory that the machine
    /// ever needs.
    ///
    /// # Errors
    ///
    /// `AllocError` if memory is refused.
    ///
    /// # Examples
    ///
    /// ```
    /// use amo_kk::{Givens, Local, Phase};
    ///
    /// let givens = Givens::try_new(5, 2, 2)?;
    /// let local = Local::new(rt.alloc(), givens, 1)?;
    /// assert!(rt; local.givens() == givens && local.number() == 1);
    /// assert!(rt; local.phase() == Phase::Announcing(1));
    /// assert!(rt; local.claims().is_empty());
    /// assert!(rt; !local.knows(5) && !local.tried(5) && local.read_of(2) == 0);
    /// ```
    pub fn new(alloc: Global, givens: Givens, p: u32) -> Result<Local, AllocError>
        requires worker { IsWorker givens p }
        ensures { IfOk result (λ l. l ≡ record { givens = givens; number = p; state = first_record givens p }) }
    {
        let knowledge = Knowledge::new(alloc, givens.jobs)?;
        let fronts = filled(alloc, givens.workers as usize, 0u32)?;
        let claims = Vec::with_capacity(alloc, givens.jobs as usize)?;
        let dones = Vec::with_capacity(alloc, givens.jobs as usize)?;
        Ok(Local::rested(givens, p, knowledge, fronts, claims, dones))
    }

    /// Returns the givens with which the machine was made.
    pub fn givens(&self) -> Givens
        ensures { result ≡ self.now.givens }
    {
        self.givens
    }

    /// Returns the worker's number, from 1.
    pub fn number(&self) -> u32
        ensures number { result ≡ self.now.number }
        ensures worker { IsWorker self.now.givens result }
    {
        self.number
    }

    /// Returns the one load or store that the worker makes next.
    pub fn want(&self) -> Want
        ensures want { result ≡ want self.now.state }
        ensures fits { WantFits self.now.givens self.now.number result }
    {
        match self.phase {
            Phase::Announcing(j) => Want::StoreNext(j),
            Phase::Trying(_, q) => Want::LoadNext(q),
            Phase::Reading(_, q) => Want::LoadDone(q, self.fronts[q as usize - 1] + 1),
            Phase::Claiming(j) => Want::StoreClaim(self.claims.len() as u32 + 1, j),
            Phase::Holding(j) => Want::StoreDone(self.dones.len() as u32 + 1, j),
            Phase::Over | Phase::Left => Want::Nothing,
        }
    }

    /// Takes the step after the store of the announcement of j.
    fn announced(&mut self, j: u32)
        requires phase { self.old.state.phase ≡ Phase.Announcing j }
        ensures { self.new ≡ record self.old { state = record_after self.old.givens self.old.number 0 self.old.state } }
    {
        let first = next_other(self.number, 0);
        self.phase = self
            .knowledge
            .to_announcement(self.givens, self.number, j, first);
        self.steps = self.steps.saturating_add(1);
    }

    /// Takes the step after a load of the announcement of q, in an attempt on j.
    fn heard_next(&mut self, j: u32, q: u32, v: u32)
        requires phase { self.old.state.phase ≡ Phase.Trying j q }
        requires value { v ≤ self.old.givens.jobs }
        ensures { self.new ≡ record self.old { state = record_after self.old.givens self.old.number v self.old.state } }
    {
        self.knowledge.note(v);
        let next = next_other(self.number, q);
        self.phase = self
            .knowledge
            .to_announcement(self.givens, self.number, j, next);
        self.steps = self.steps.saturating_add(1);
    }

    /// Takes the step after a load of 0 from the row of q, in an attempt on j.
    fn heard_zero(&mut self, j: u32, q: u32)
        requires phase { self.old.state.phase ≡ Phase.Reading j q }
        ensures { self.new ≡ record self.old { state = record_after self.old.givens self.old.number 0 self.old.state } }
    {
        let next = next_other(self.number, q);
        self.phase = self.knowledge.to_row(self.givens, self.number, j, next);
        self.steps = self.steps.saturating_add(1);
    }

    /// Takes the step after a load of an entry from the row of q, in an attempt on j.
    fn heard_entry(&mut self, j: u32, q: u32, v: u32)
        requires phase { self.old.state.phase ≡ Phase.Reading j q }
        requires some { 1 ≤ v }
        requires hears { MayLoad self.old.givens v (want self.old.state) }
        ensures { self.new ≡ record self.old { state = record_after self.old.givens self.old.number v self.old.state } }
    {
        self.knowledge.learn(v);
        self.fronts[q as usize - 1] += 1;
        self.steps = self.steps.saturating_add(1);
    }

    /// Takes the step after the store of the claim of j.
    fn claimed(&mut self, j: u32)
        requires phase { self.old.state.phase ≡ Phase.Claiming j }
        ensures { self.new ≡ record self.old { state = record_after self.old.givens self.old.number 0 self.old.state } }
    {
        add_within(&mut self.claims, j);
        self.phase = Phase::Holding(j);
        self.steps = self.steps.saturating_add(1);
    }

    /// Takes the step after j was recorded as done.
    fn done(&mut self, j: u32)
        requires phase { self.old.state.phase ≡ Phase.Holding j }
        ensures { self.new ≡ record self.old { state = record_after self.old.givens self.old.number 0 self.old.state } }
    {
        add_within(&mut self.dones, j);
        self.knowledge.learn(j);
        self.phase = self.knowledge.choose(self.givens, self.number);
        self.steps = self.steps.saturating_add(1);
    }

    /// `told`: gives the machine the value v of the load that it wanted, and returns what the step
    /// shows.
    pub fn told(&mut self, v: u64) -> Shown
        requires load { is_load (want self.old.state) ≡ true }
        requires hears { MayLoad self.old.givens v (want self.old.state) }
        ensures shows { result ≡ shown self.old.state.phase self.new.state.phase }
        ensures record { self.new ≡ record self.old { state = record_after self.old.givens self.old.number v self.old.state } }
    {
        let before = self.phase;
        match before {
            Phase::Trying(j, q) => self.heard_next(j, q, v as u32),
            Phase::Reading(j, q) => {
                if v == 0 {
                    self.heard_zero(j, q);
                } else {
                    self.heard_entry(j, q, v as u32);
                }
            }
            Phase::Announcing(_)
            | Phase::Claiming(_)
            | Phase::Holding(_)
            | Phase::Over
            | Phase::Left => {}
        }
        shown(before, self.phase)
    }

    /// `stored`: notes that the store that it wanted was made, and returns what the
    /// step shows.
    pub fn stored(&mut self) -> Shown
        requires { is_store (want self.old.state) ≡ true }
        ensures shows { result ≡ shown self.old.state.phase self.new.state.phase }
        ensures record { self.new ≡ record self.old { state = record_after self.old.givens self.old.number 0 self.old.state } }
    {
        let before = self.phase;
        match before {
            Phase::Announcing(j) => self.announced(j),
            Phase::Claiming(j) => self.claimed(j),
            Phase::Holding(j) => self.done(j),
            Phase::Trying(_, _) | Phase::Reading(_, _) | Phase::Over | Phase::Left => {}
        }
        shown(before, self.phase)
    }

    /// Returns true if the worker may leave: it isn't gone, and has nothing in its hand.
    ///
    /// # Examples
    ///
    /// ```
    /// use amo_kk::{Givens, Local, Shown, Want};
    ///
    /// let givens = Givens::try_new(3, 1, 1)?;
    /// let mut local = Local::new(rt.alloc(), givens, 1)?;
    /// local.stored(); // it has announced job 1
    /// assert!(rt; local.can_leave());
    /// assert!(rt; local.leave() == Shown::Left); // after a store of 0 to its announcement
    /// assert!(rt; local.has_left() && !local.ended());
    /// assert!(rt; local.want() == Want::Nothing);
    /// ```
    pub fn can_leave(&self) -> bool
        ensures { result ≡ can_leave self.now.state.phase }
    {
        match self.phase {
            Phase::Announcing(_)
            | Phase::Trying(_, _)
            | Phase::Reading(_, _)
            | Phase::Claiming(_) => true,
            Phase::Holding(_) | Phase::Over | Phase::Left => false,
        }
    }

    /// Takes the last step of the worker: it leaves. The caller has stored 0 to its announcement.
    pub fn leave(&mut self) -> Shown
        requires { can_leave self.old.state.phase ≡ true }
        ensures shows { result ≡ Shown.Left }
        ensures record { self.new ≡ record self.old { state = record_after_leave self.old.state } }
    {
        self.phase = Phase::Left;
        self.steps = self.steps.saturating_add(1);
        Shown::Left
    }

    /// Returns true if the worker has ended by its own choice.
    pub fn ended(&self) -> bool
        ensures { result ≡ is_over self.now.state.phase }
    {
        self.phase.is_over()
    }

    /// Returns true if the worker has left.
    pub fn has_left(&self) -> bool
        ensures { result ≡ true ↔ self.now.state.phase ≡ Phase.Left }
    {
        matches!(self.phase, Phase::Left)
    }

    /// Returns true if the worker knows that j is done.
    pub fn knows(&self, j: u32) -> bool
        requires { IsJob self.now.givens j }
        ensures { result ≡ has self.now.state.known j }
    {
        self.knowledge.knows(j)
    }

    /// Returns true if the worker has seen j announced in this attempt.
    pub fn tried(&self, j: u32) -> bool
        requires { IsJob self.now.givens j }
        ensures { result ≡ has self.now.state.tried j }
    {
        self.knowledge.tried(j)
    }

    /// Returns how many entries of the row of q the worker has read. Zeros aren't counted.
    pub fn read_of(&self, q: u32) -> u32
        requires { IsOther self.now.givens self.now.number q }
        ensures { result ≡ numbered 0 self.now.state.fronts q }
    {
        self.fronts[q as usize - 1]
    }

    /// Returns the claimed jobs, in the order of their claims.
    pub fn claims(&self) -> &[u32]
        ensures { result.now ≡ self.now.state.claimed }
    {
        &self.claims
    }

    /// Returns the done jobs, in the order in which they were recorded.
    pub fn dones(&self) -> &[u32]
        ensures { result.now ≡ self.now.state.dones }
    {
        &self.dones
    }

    /// Returns the job in the worker's hand: claimed, and not recorded as done.
    pub fn in_hand(&self) -> Option<u32>
        ensures { option_to_list result ≡ jobs_in_hand self.now.state.phase }
    {
        match self.phase {
            Phase::Holding(j) => Some(j),
            Phase::Announcing(_)
            | Phase::Trying(_, _)
            | Phase::Reading(_, _)
            | Phase::Claiming(_)
            | Phase::Over
            | Phase::Left => None,
        }
    }

    /// Returns how many steps the worker has taken, a leave included. The count stops at
    /// 18446744073709551615.
    pub fn steps(&self) -> u64
        ensures { result ≡ self.now.state.steps }
    {
        self.steps
    }

    /// Returns the phase: what the worker is about to do.
    pub fn phase(&self) -> Phase
        ensures { result ≡ self.now.state.phase }
    {
        self.phase
    }
}

/// Adds a job to a list that has room, and takes no memory.
fn add_within(list: &mut Vec<u32>, job: u32)
    requires { length list.old.items < vec_capacity list.old }
    ensures items { list.new.items ≡ list.old.items ++ job ∷ [] }
    ensures capacity { vec_capacity list.new ≡ vec_capacity list.old }
{
    list.push_reserved(job);
}

/// Returns what a step shows, by the phases before and after it.
fn shown(before: Phase, after: Phase) -> Shown
    ensures { result ≡ shown before after }
{
    let ended = after.is_over();
    match before {
        Phase::Announcing(_) | Phase::Trying(_, _) | Phase::Reading(_, _) if ended => Shown::Ended,
        Phase::Announcing(_) | Phase::Trying(_, _) | Phase::Reading(_, _) => Shown::Quiet,
        Phase::Claiming(j) => Shown::Claimed(j),
        Phase::Holding(j) if ended => Shown::DoneEnded(j),
        Phase::Holding(j) => Shown::Done(j),
        Phase::Over | Phase::Left => Shown::Quiet,
    }
}
