//! The end of the queue to which a worker's outputs are put.
ghost use Rattle.std.specs.Prelude.{◌≡◌, vec_capacity};
ghost use Rattle.amo_mailbox.specs.Ports.{OutletView};

use crate::output::Output;
use crate::queue::{Port, Puts, Queue};
use std::marker::Model;
use std::sync::Wait;

/// `Outlet`: puts the outputs of one worker into a queue, and keeps those for which the queue has
/// no place.
#[derive(Drop)]
pub struct Outlet<Out> {
    pub(crate) pass: Port<Out>,
    pub(crate) worker: u32,
    pub(crate) kept: Vec<Output<Out>>,
    pub(crate) put_count: u32,
    pub(crate) room: u32,
}

impl<Out> Model for Outlet<Out> {
    ghost Value = { OutletView Out };

    ghost view = { λ o. record { pass = o.pass; worker = o.worker; kept = o.kept.items; put_count = o.put_count; room = o.room } };

    ghost invariant = { λ o. o.room ≡ vec_capacity o.kept };
}

impl<Out: Drop> Outlet<Out> {
    ghost use Rattle.crossbeam_queue.specs.Passes.{IsPassOf};
    ghost use Rattle.amo_mailbox.specs.Endpoints.{IsNewOutletOf};
    ghost use Rattle.amo_mailbox.specs.declared.pass_state.PassState.TheVariants.{Sends};
    ghost use Rattle.std.specs.Prelude.{vec_capacity, nat_lt, ◌≡◌, ◌+◌, ◌<◌, ◌≤◌, ◌⊎◌, [], ◌∷◌, ◌++◌};
    ghost use Rattle.crossbeam_queue.specs.Passes.{view};
    ghost use Rattle.amo_mailbox.specs.Endpoints.{IsOutletOf, given, sent_by};

    /// Returns an outlet that was given nothing yet. The queue is for the contract alone.
    pub(crate) fn new(
        _queue: &Queue<Out>,
        pass: Port<Out>,
        worker: u32,
        kept: Vec<Output<Out>>,
        room: u32,
    ) -> Outlet<Out>
        requires pass { IsPassOf _queue.now.ring pass }
        requires view { view pass ≡ Sends worker [] }
        requires kept { (kept.items ≡ []) × (room ≡ vec_capacity kept) }
        ensures new { IsNewOutletOf _queue.now room result }
        ensures worker { result.worker ≡ worker }
    {
        Outlet {
            pass,
            worker,
            kept,
            put_count: 0,
            room,
        }
    }

    /// Puts an output of the outlet's worker into the queue, which must be the outlet's own. Check
    /// `has_room` first. Once the queue was full, the outlet keeps that output and all later ones.
    /// It takes no memory, and may wait while another thread is inside the queue.
    pub fn put<R: Wait>(&mut self, rt: &R, queue: &Queue<Out>, output: Output<Out>)
        requires belong { IsOutletOf queue.now self.old }
        requires worker { output.worker ≡ self.old.worker }
        requires room { self.old.put_count < self.old.room }
        ensures belong { IsOutletOf queue.now self.new }
        ensures given { given self.new ≡ given self.old ++ output ∷ [] }
        ensures kept { (self.new.kept ≡ self.old.kept ++ output ∷ []) ⊎ ((self.old.kept ≡ []) × (self.new.kept ≡ [])) }
        ensures same { (self.new.worker ≡ self.old.worker) × (self.new.room ≡ self.old.room) }
        ensures count { self.new.put_count ≡ self.old.put_count + 1 }
    {
        self.put_count += 1;
        if !self.kept.is_empty() {
            self.kept.push_reserved(output);
            return;
        }
        if let Err(back) = queue.ring.push_as::<Puts, R>(rt, &mut self.pass, output) {
            self.kept.push_reserved(back);
        }
    }

    /// Returns the worker whose outputs it takes, from 1.
    pub fn worker(&self) -> u32
        ensures worker { result ≡ self.now.worker }
    {
        self.worker
    }

    /// Returns true if it may be given one more output: it was given fewer than there are jobs.
    pub fn has_room(&self) -> bool
        ensures room { result ≡ nat_lt self.now.put_count self.now.room }
    {
        self.put_count < self.room
    }

    /// Returns the outputs that it keeps: the first for which the queue was full, and all later
    /// ones.
    pub fn kept(&self) -> &[Output<Out>]
        ensures { result.now ≡ self.now.kept }
    {
        self.kept.as_slice()
    }

    /// Returns how many outputs it was given, at most the number of jobs.
    pub fn put_count(&self) -> u32
        ensures { result ≡ self.now.put_count }
    {
        self.put_count
    }
}
