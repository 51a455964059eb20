//! A state of the sequential object, for the judge.
ghost use Rattle.std.specs.Prelude.{◌≡◌, true, IfOk, OnOk};
ghost use Rattle.amo_sets.specs.Sets.{has};
ghost use Rattle.amo_params.specs.Givens.{IsJob, is_within};
ghost use Rattle.amo_kk.specs.Object.{first_object, is_step, object_after, is_here};
ghost use Rattle.amo_world.specs.Views.{StateView};

use amo_kk::Event;
use amo_params::Givens;
use std::alloc::{AllocError, Global};
use std::marker::Model;

/// A state of the sequential object: the unclaimed jobs, the job in each worker's hand or 0, the
/// done pairs of worker and job, and the workers that are gone.
#[derive(Drop)]
pub(crate) struct State {
    givens: Givens,
    unclaimed: Vec<bool>,
    in_hand: Vec<u32>,
    performed: Vec<(u32, u32)>,
    gone: Vec<bool>,
}

impl Model for State {
    ghost use Rattle.std.specs.Prelude.{◌≡◌, length};
    ghost use Rattle.amo_sets.specs.Sets.{set_of_bits};
    ghost use Rattle.amo_world.specs.Views.{StateView, AreSized};

    ghost Value = { StateView };

    ghost view = { λ s. record {
      givens = s.givens;
      object = record {
        unclaimed = set_of_bits s.unclaimed.items;
        in_hand = s.in_hand.items;
        performed = s.performed.items;
        gone = s.gone.items;
      };
    } };

    ghost invariant = { λ s. AreSized s.givens (length s.unclaimed.items) (length s.in_hand.items) (length s.gone.items) };
}

impl State {
    /// The first state.
    #[tactic(auto, using(crate::proofs::Unclaimed::bits_full, amo_kk::proofs::Bits::replicate_table))]
    pub(crate) fn new(alloc: Global, givens: Givens) -> Result<State, AllocError>
        ensures { IfOk result (λ s. s ≡ record { givens = givens; object = first_object givens }) }
    {
        let unclaimed = vec![in alloc; true; givens.jobs as usize]?;
        let in_hand = vec![in alloc; 0u32; givens.workers as usize]?;
        let performed = Vec::with_capacity(alloc, givens.jobs as usize)?;
        let gone = vec![in alloc; false; givens.workers as usize]?;
        Ok(State {
            givens,
            unclaimed,
            in_hand,
            performed,
            gone,
        })
    }

    /// Returns true if p is a worker that isn't gone.
    fn is_here(&self, p: u32) -> bool
        ensures { result ≡ is_here self.now.givens self.now.object p }
    {
        1 <= p && p <= self.givens.workers && !self.gone[p as usize - 1]
    }

    /// Returns true if j is a job.
    fn is_job(&self, j: u32) -> bool
        ensures { result ≡ is_within self.now.givens.jobs j }
    {
        1 <= j && j <= self.givens.jobs
    }

    /// Returns true if job j is unclaimed.
    fn is_unclaimed(&self, j: u32) -> bool
        requires { IsJob self.now.givens j }
        ensures { result ≡ has self.now.object.unclaimed j }
    {
        self.unclaimed[j as usize - 1]
    }

    /// Returns true if the event is a step from this state.
    pub(crate) fn allows(&self, event: Event) -> bool
        ensures { result ≡ is_step self.now.givens self.now.object event }
    {
        match event {
            Event::Claimed(p, j) => {
                self.is_here(p)
                    && self.is_job(j)
                    && self.in_hand[p as usize - 1] == 0
                    && self.is_unclaimed(j)
            }
            Event::Done(p, j) => {
                self.is_here(p) && self.is_job(j) && self.in_hand[p as usize - 1] == j
            }
            Event::Ended(p) => {
                self.is_here(p)
                    && self.in_hand[p as usize - 1] == 0
                    && self.givens.bound() as usize <= self.performed.len()
            }
            Event::Halted(p) => self.is_here(p),
            Event::Left(p) => self.is_here(p) && self.in_hand[p as usize - 1] == 0,
        }
    }

    /// The state after the event, which is a step.
    pub(crate) fn follow(&mut self, event: Event) -> Result<(), AllocError>
        requires { is_step self.old.givens self.old.object event ≡ true }
        ensures { OnOk result (self.new ≡ record { givens = self.old.givens; object = object_after self.old.object event }) }
    {
        match event {
            Event::Claimed(p, j) => {
                self.unclaimed[j as usize - 1] = false;
                self.in_hand[p as usize - 1] = j;
            }
            Event::Done(p, j) => {
                self.performed.push((p, j))?;
                self.in_hand[p as usize - 1] = 0;
            }
            Event::Ended(p) | Event::Halted(p) | Event::Left(p) => {
                self.gone[p as usize - 1] = true;
            }
        }
        Ok(())
    }
}
