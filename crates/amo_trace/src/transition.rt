//! Transitions: what one move of a run does.
ghost use Rattle.std.specs.Prelude.{◌≡◌, slice_get};
ghost use Rattle.amo_trace.specs.Transitions.{loads, fails, job_of, fact_of_want, fact_of_act, fact_of};

use amo_kk::{Phase, Want};

/// The act of a worker in one move.
#[derive(Clone, Copy, Debug, PartialEq, Eq)]
pub enum Act {
    /// It has a turn: this load or store, and the value that it loads, or 0 at a store.
    Turned(Want, u32),
    /// It leaves: it stores 0 to its announcement.
    Leaves,
    /// It is stopped.
    Stops,
    /// It was asked to leave and stays, since a job is in its hand.
    Stays,
    /// It was gone before, and nothing happens.
    Idles,
}

/// One move of a run.
#[derive(Clone, Copy, Debug, PartialEq, Eq)]
pub struct Transition {
    /// The number of the move among those of the schedule and the rounds, from 1.
    pub number: usize,
    /// The worker of the move.
    pub worker: u32,
    /// The act of the worker.
    pub act: Act,
    /// Where it stood before the move.
    pub before: Phase,
    /// Where it stands after the move.
    pub after: Phase,
    /// True if the worker is gone after the move.
    pub gone: bool,
}

/// The further effect of a transition, besides its load or store.
#[derive(Clone, Copy, Debug, PartialEq, Eq)]
pub enum Fact {
    /// Nothing more.
    Plain,
    /// This job was read in an announcement.
    Tried(u32),
    /// This job was read in a row.
    Known(u32),
    /// The attempt on this job has failed.
    Failed(u32),
    /// The claim of this job was stored.
    Claimed(u32),
    /// The performance of this job was stored.
    Done(u32),
}

/// Returns the job of an attempt, or the one in a worker's hand. It is 0 without a job.
pub fn job_of(phase: Phase) -> u32
    ensures { result ≡ job_of phase }
{
    match phase {
        Phase::Announcing(j)
        | Phase::Trying(j, _)
        | Phase::Reading(j, _)
        | Phase::Claiming(j)
        | Phase::Holding(j) => j,
        Phase::Over | Phase::Left => 0,
    }
}

/// Returns true if the act is a load.
fn loads(act: Act) -> bool
    ensures { result ≡ loads act }
{
    match act {
        Act::Turned(Want::LoadNext(_) | Want::LoadDone(_, _), _) => true,
        Act::Turned(_, _) | Act::Leaves | Act::Stops | Act::Stays | Act::Idles => false,
    }
}

/// Returns the further effect of a load or store whose attempt hasn't failed.
fn fact_of_want(want: Want, value: u32) -> Fact
    ensures { result ≡ fact_of_want want value }
{
    match want {
        Want::LoadNext(_) if value != 0 => Fact::Tried(value),
        Want::LoadDone(_, _) if value != 0 => Fact::Known(value),
        Want::StoreClaim(_, j) => Fact::Claimed(j),
        Want::StoreDone(_, j) => Fact::Done(j),
        Want::LoadNext(_) | Want::LoadDone(_, _) | Want::StoreNext(_) | Want::Nothing => {
            Fact::Plain
        }
    }
}

/// Returns the further effect of an act whose attempt hasn't failed.
fn fact_of_act(act: Act) -> Fact
    ensures { result ≡ fact_of_act act }
{
    match act {
        Act::Turned(want, value) => fact_of_want(want, value),
        Act::Leaves | Act::Stops | Act::Stays | Act::Idles => Fact::Plain,
    }
}

/// Returns the transition at a place.
pub fn transition_at(transitions: &[Transition], place: usize) -> Option<Transition>
    ensures { result ≡ slice_get transitions.now place }
{
    match transitions.get(place) {
        Some(transition) => Some(*transition),
        None => None,
    }
}

impl Transition {
    /// Returns true if its attempt has failed: after a load the worker is about to announce another
    /// job, or has ended.
    pub fn fails(&self) -> bool
        ensures { result ≡ fails self.now }
    {
        loads(self.act) && matches!(self.after, Phase::Announcing(_) | Phase::Over)
    }

    /// Returns the further effect, besides the load or store.
    pub fn fact(&self) -> Fact
        ensures { result ≡ fact_of self.now }
    {
        if self.fails() {
            return Fact::Failed(job_of(self.before));
        }
        fact_of_act(self.act)
    }
}
