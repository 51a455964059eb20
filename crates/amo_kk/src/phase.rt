//! The phases of a worker, and the accesses that it makes.
ghost use Rattle.std.specs.Prelude.{◌≡◌, ◌<◌, ◌^◌};
ghost use Rattle.amo_params.specs.Givens.{next_other};

use crate::event::Leaving;

/// `Phase`: the next thing that a worker does. The first number is the job of its attempt, the
/// second another worker.
#[derive(Clone, Copy, Debug, PartialEq, Eq)]
pub enum Phase {
    /// It announces the job next.
    Announcing(u32),
    /// It reads the announcement of the other worker next.
    Trying(u32, u32),
    /// It reads the next entry of the other worker's row next.
    Reading(u32, u32),
    /// It claims the job next.
    Claiming(u32),
    /// The job is claimed and in its hand. It records the job as done next.
    Holding(u32),
    /// It has ended by its own choice.
    Over,
    /// It has left.
    Left,
}

impl Phase {
    ghost use Rattle.amo_kk.specs.Record.{is_over, wants_nothing};
    ghost use Rattle.amo_kk.specs.Answer.{leaving};

    /// Returns true if a worker in this phase has ended by its own choice.
    ///
    /// # Examples
    ///
    /// ```
    /// use amo_kk::{Leaving, Phase};
    ///
    /// assert!(rt; Phase::Over.is_over() && Phase::Over.wants_nothing());
    /// assert!(rt; !Phase::Left.is_over() && Phase::Left.wants_nothing());
    /// assert!(rt; Phase::Announcing(3).leaving() == Leaving::Left);
    /// assert!(rt; Phase::Holding(3).leaving() == Leaving::InHand(3));
    /// assert!(rt; Phase::Over.leaving() == Leaving::Gone);
    /// ```
    pub fn is_over(self) -> bool
        ensures { result ≡ is_over self }
    {
        matches!(self, Phase::Over)
    }

    /// Returns true if a worker in this phase takes no step of its own any more: it has ended or
    /// left.
    pub fn wants_nothing(self) -> bool
        ensures { result ≡ wants_nothing self }
    {
        matches!(self, Phase::Over | Phase::Left)
    }

    /// Returns the result of a request to leave, for a worker in this phase that hasn't crashed.
    pub fn leaving(self) -> Leaving
        ensures { result ≡ leaving self }
    {
        match self {
            Phase::Announcing(_)
            | Phase::Trying(_, _)
            | Phase::Reading(_, _)
            | Phase::Claiming(_) => Leaving::Left,
            Phase::Holding(j) => Leaving::InHand(j),
            Phase::Over | Phase::Left => Leaving::Gone,
        }
    }
}

/// `Want`: the one load or store of a register that a worker makes next.
#[derive(Clone, Copy, Debug, PartialEq, Eq)]
pub enum Want {
    /// Store this job to the worker's announcement.
    StoreNext(u32),
    /// Load the announcement of this worker.
    LoadNext(u32),
    /// Load the entry at this place (second, from 1) of this worker's row (first).
    LoadDone(u32, u32),
    /// Store this count (first) to the worker's count of claims. The last claim is of the job
    /// (second).
    StoreClaim(u32, u32),
    /// Store the job (second) at this place (first, from 1) of the worker's row.
    StoreDone(u32, u32),
    /// Nothing, since it has ended or left.
    Nothing,
}

/// Returns the worker after q, leaving out p. The first other of p is the one after 0.
pub(crate) fn next_other(p: u32, q: u32) -> u32
    requires { q < 2 ^ 31 }
    ensures { result ≡ next_other p q }
{
    if q + 1 == p { q + 2 } else { q + 1 }
}
