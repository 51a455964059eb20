//! The end of the queue from which outputs are taken.
ghost use Rattle.std.specs.Prelude.{◌≡◌, vec_capacity};
ghost use Rattle.amo_mailbox.specs.Ports.{InletView};

use crate::output::Output;
use crate::queue::{Port, Queue, Takes};
use std::marker::Model;
use std::sync::Wait;

/// `Inlet`: takes outputs out of a queue, and keeps them in a list with room for one a job.
#[derive(Drop)]
pub struct Inlet<Out> {
    pub(crate) pass: Port<Out>,
    pub(crate) taken: Vec<Output<Out>>,
    pub(crate) room: u32,
}

impl<Out> Model for Inlet<Out> {
    ghost Value = { InletView Out };

    ghost view = { λ i. record { pass = i.pass; taken = i.taken.items; room = i.room } };

    ghost invariant = { λ i. i.room ≡ vec_capacity i.taken };
}

impl<Out> Inlet<Out> {
    ghost use Rattle.std.specs.Prelude.{◌≡◌, ◌+◌, ◌<◌, ◌≤◌, ◌⊎◌, [], ◌∷◌, ◌++◌, List, MatchBool, vec_len};
    ghost use Rattle.amo_mailbox.specs.Endpoints.{IsInletOf};
    ghost use Rattle.amo_mailbox.specs.declared.output.Output.{Output};

    /// Takes the first output of the queue, which must be the inlet's own. It returns false if the
    /// queue was found empty, or if as many were taken as there are jobs. It takes no memory, and
    /// may wait while another thread is inside the queue.
    pub fn take<R: Wait>(&mut self, rt: &R, queue: &Queue<Out>) -> bool
        requires belong { IsInletOf queue.now self.old }
        ensures belong { IsInletOf queue.now self.new }
        ensures took { MatchBool result ((x : Output Out) × (self.new.taken ≡ self.old.taken ++ x ∷ [])) (self.new.taken ≡ self.old.taken) }
        ensures same { self.new.room ≡ self.old.room }
    {
        if self.taken.len() >= self.room as usize {
            return false;
        }
        match queue.ring.pop_as::<Takes, R>(rt, &mut self.pass) {
            Some(output) => {
                self.taken.push_reserved(output);
                true
            }
            None => false,
        }
    }

    /// Returns for how many outputs the inlet has room in all: the number of jobs.
    pub fn room(&self) -> u32
        ensures room { result ≡ self.now.room }
    {
        self.room
    }

    /// Returns the outputs that were taken, in order.
    pub fn taken(&self) -> &[Output<Out>]
        ensures { result.now ≡ self.now.taken }
    {
        self.taken.as_slice()
    }
}
