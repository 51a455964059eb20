//! How all outputs are collected once the outlets have come back.
ghost use Rattle.std.specs.Prelude.{true, ◌≡◌, ◌+◌, ◌<◌, ◌≤◌, ◌==◌, [], ◌∷◌, ◌++◌, length, map, filter, flat_map, sum_by, All, vec_len, vec_capacity};
ghost use Rattle.std.specs.List.{list_any};
ghost use Rattle.crossbeam_queue.specs.Passes.{view, IsPassOf};
ghost use Rattle.amo_mailbox.specs.declared.pass_state.PassState.TheVariants.{Gets};
ghost use Rattle.amo_mailbox.specs.Mailbox.{of, taken_of, made_of, back_of, AreWhole, AreApart};
ghost use Rattle.amo_mailbox.specs.Endpoints.{IsOutletOf, IsInletOf, IsGets, given, worker_and_sent, has_worker, worker_and_kept, EndsByRisingWorker};

use crate::inlet::Inlet;
use crate::outlet::Outlet;
use crate::output::Output;
use crate::queue::{Passes, Port, Queue, Takes};
use std::sync::Wait;

/// Takes in the knowledge of an outlet's pass.
fn bring<Out: Drop>(queue: &Queue<Out>, pass: &mut Port<Out>, outlet: &mut Outlet<Out>)
    requires pass { IsPassOf queue.now.ring pass.old }
    requires view { IsGets (view pass.old) }
    requires belong { IsOutletOf queue.now outlet.old }
    ensures pass { IsPassOf queue.now.ring pass.new }
    ensures view { view pass.new ≡ Gets (taken_of (view pass.old)) (made_of (view pass.old)) (back_of (view pass.old) ++ worker_and_sent outlet.old ∷ []) }
    ensures left { worker_and_kept outlet.new ≡ worker_and_kept outlet.old }
{
    let whole = queue.ring.another::<Passes>(&mut outlet.pass);
    queue.ring.absorb::<Passes>(pass, whole);
}

/// Takes in the knowledge of the outlets' passes.
fn bring_back<Out: Drop>(queue: &Queue<Out>, pass: &mut Port<Out>, outlets: &mut [Outlet<Out>])
    requires pass { IsPassOf queue.now.ring pass.old }
    requires view { view pass.old ≡ Gets (taken_of (view pass.old)) (made_of (view pass.old)) [] }
    requires belong { All (λ o. IsOutletOf queue.now o) outlets.old }
    ensures pass { IsPassOf queue.now.ring pass.new }
    ensures view { view pass.new ≡ Gets (taken_of (view pass.old)) (made_of (view pass.old)) (map worker_and_sent outlets.old) }
    ensures left { map worker_and_kept outlets.new ≡ map worker_and_kept outlets.old }
{
    for outlet in outlets.iter_mut() {
        bring(queue, pass, outlet);
    }
}

/// Returns true if one of the outlets is of this worker.
fn is_among<Out>(outlets: &[Outlet<Out>], worker: u32) -> bool
    ensures { result ≡ has_worker outlets.now worker }
{
    outlets.iter().any(|o| worker == o.worker)
}

/// Keeps the outputs of the outlets' workers.
fn keep_only<Out: Drop>(taken: &mut Vec<Output<Out>>, outlets: &[Outlet<Out>])
    ensures items { taken.new.items ≡ filter (λ x. has_worker outlets.now x.worker) taken.old.items }
    ensures capacity { vec_capacity taken.new ≡ vec_capacity taken.old }
{
    taken.retain(
        |x| -> bool
            ensures { result ≡ has_worker outlets.entry.now x.now.worker }
        { is_among(outlets, x.worker) },
    );
}

/// Adds the outputs that the outlets kept.
fn append_kept<Out: Drop>(into: &mut Vec<Output<Out>>, outlets: &mut [Outlet<Out>])
    requires { vec_len into.old + sum_by (λ o. length o.kept) outlets.old ≤ vec_capacity into.old }
    ensures { into.new.items ≡ into.old.items ++ flat_map (λ o. o.kept) outlets.old }
{
    for outlet in outlets.iter_mut() {
        let _ = into.append(&mut outlet.kept);
    }
}

/// Takes the outputs that stand in the queue, and keeps those of the outlets' workers.
fn take_rest<Out: Drop, R: Wait>(
    rt: &R,
    queue: &Queue<Out>,
    pass: &mut Port<Out>,
    outlets: &[Outlet<Out>],
    into: &mut Vec<Output<Out>>,
)
    requires pass { IsPassOf queue.now.ring pass.old }
    requires view { IsGets (view pass.old) }
    requires workers { map (λ e. e.0) (back_of (view pass.old)) ≡ map (λ o. o.worker) outlets.now }
    requires into { into.old.items ≡ filter (λ x. has_worker outlets.now x.worker) (taken_of (view pass.old)) }
    requires room { sum_by (λ e. length e.1) (back_of (view pass.old)) ≤ vec_capacity into.old }
    ensures whole { AreWhole into.new.items (back_of (view pass.old)) }
    ensures apart { AreApart (back_of (view pass.old)) }
    ensures only { All (λ x. has_worker outlets.now x.worker ≡ true) into.new.items }
    ensures len { vec_len into.new ≤ sum_by (λ e. length e.1) (back_of (view pass.old)) }
    ensures capacity { vec_capacity into.new ≡ vec_capacity into.old }
{
    for _ in rt.forever() {
        let Some(output) = queue.ring.pop_as::<Takes, R>(rt, pass) else {
            return;
        };
        if is_among(outlets, output.worker) {
            into.push_reserved(output);
        }
    }
    unreachable!()
}

impl<Out: Drop> Inlet<Out> {
    /// Returns all outputs of these outlets, each outlet's in order. First come those that were
    /// taken and the rest of the queue, then those that the outlets kept, by rising worker. Outputs
    /// of other outlets are dropped. Queue and outlets must be the inlet's own. The outlets must
    /// have been given together at most as many outputs as there are jobs. It takes no memory, and
    /// may wait.
    pub fn gather<R: Wait>(
        self,
        rt: &R,
        queue: Queue<Out>,
        mut outlets: Vec<Outlet<Out>>,
    ) -> Vec<Output<Out>>
        requires inlet { IsInletOf queue self }
        requires outlets { All (λ o. IsOutletOf queue o) outlets.items }
        requires room { sum_by (λ o. o.put_count) outlets.items ≤ self.room }
        ensures each { All (λ o. of o.worker result.items ≡ given o) outlets.items }
        ensures only { All (λ x. has_worker outlets.items x.worker ≡ true) result.items }
        ensures kept { EndsByRisingWorker result.items outlets.items }
    {
        let Inlet {
            mut pass,
            mut taken,
            room: _,
        } = self;
        outlets.sort_unstable_by_key(|o| o.worker);
        let row = outlets.as_mut_slice();
        bring_back(&queue, &mut pass, row);
        keep_only(&mut taken, row);
        take_rest(rt, &queue, &mut pass, row, &mut taken);
        append_kept(&mut taken, row);
        taken
    }
}
