//! The end of a run in which a worker could not be hired.
ghost use Rattle.std.specs.Prelude.{◌≡◌, ◌≤◌, [], ℕ, List, All, length, vec_len, vec_capacity, map, replicate};
ghost use Rattle.amo_params.specs.declared.givens.Givens.{Givens};
ghost use Rattle.amo_words.specs.Hiring.{HasCollected};
ghost use Rattle.amo_claims.specs.Calls.{worker_in};
ghost use Rattle.amo_mailbox.specs.declared.queue.Queue.{Queue};
ghost use Rattle.amo_crew.specs.Hired.{AreHired, AreCalledOff, AtTable, IsCalledOff};
ghost use Rattle.amo_crew.specs.declared.outcome.End.TheVariants.{NotStarted};

use crate::fault::ExecFault;
use crate::kit::Kit;
use crate::outcome::End;
use crate::run::Member;
use crate::settle::unsettled::Unsettled;
use amo_claims::After;
use amo_words::{Book, Floor, Settlement};
use std::alloc::Global;

/// Gives the worker back to the registry, without a step.
fn send_back<P: Drop>(floor: &Floor<P>, book: &mut Book<P>, after: After<P>)
    requires table { book.old.table_id ≡ floor.now.table_id }
    requires worker { (worker_in after).table_id ≡ floor.now.table_id }
    ensures collected { HasCollected book.old (worker_in after) book.new }
{
    match after {
        After::More(ready) => ready.halt().collect(floor, book),
        After::Over(gone) => gone.collect(floor, book),
    }
}

/// Gives the workers of the crew back to the registry, without a step.
pub(crate) fn call_back<P: Drop, Out: Drop>(
    floor: &Floor<P>,
    book: &mut Book<P>,
    mut crew: Vec<Member<P, Out>>,
)
    requires table { book.old.table_id ≡ floor.now.table_id }
    requires workers { All (AtTable floor.now.table_id) crew.items }
    ensures table { book.new.table_id ≡ book.old.table_id }
    ensures back { (queue : Queue Out) (g : Givens) (payloads : List P) (budgets : List ℕ) → AreCalledOff queue floor.now.table_id g payloads budgets book.old crew.items
        → AreCalledOff queue floor.now.table_id g payloads budgets book.new [] }
{
    while let Some(member) = crew.pop() {
        let Member {
            after,
            outlet: _,
            budget: _,
        } = member;
        send_back(floor, book, after);
    }
}

/// Returns the payloads of free jobs, in their order.
pub(crate) fn payloads_of<P: Drop>(free: Vec<(u32, P)>, mut spare: Vec<P>) -> Vec<P>
    requires empty { spare.items ≡ [] }
    requires room { vec_len free ≤ vec_capacity spare }
    ensures { result.items ≡ map (λ t. t.1) free.items }
{
    for (_, payload) in free {
        spare.push_reserved(payload);
    }
    spare
}

/// Returns an end for each worker, none of whose threads was started.
pub(crate) fn none_started(workers: u32, mut ends: Vec<End>) -> Vec<End>
    requires empty { ends.items ≡ [] }
    requires room { workers ≤ vec_capacity ends }
    ensures { result.items ≡ replicate workers NotStarted }
{
    for _ in 0..workers {
        ends.push_reserved(End::NotStarted);
    }
    ends
}

/// Returns the refusal for a worker that could not be hired. No thread was started, and the
/// payloads come back if the final accounting has memory.
pub(crate) fn call_off<P: Drop, Out: Drop>(
    alloc: Global,
    floor: Floor<P>,
    mut book: Book<P>,
    kit: Kit<P, Out>,
) -> ExecFault<P, Out>
    requires hired { (budgets : List ℕ) × AreHired floor.table_id floor.givens book.view.payloads budgets book kit }
    requires count { length book.view.payloads ≡ floor.givens.jobs }
    ensures { IsCalledOff floor.givens book.view.payloads result }
{
    let Kit {
        queue: _,
        inlet: _,
        outlets: _,
        crew,
        finishes: _,
        ends,
        in_hand,
        spare,
    } = kit;
    call_back(&floor, &mut book, crew);
    match floor.close(book).settle(alloc) {
        Ok(settlement) => {
            let Settlement {
                claims: _,
                dones: _,
                ends: _,
                free,
            } = settlement;
            ExecFault::NoMemory(payloads_of(free, spare))
        }
        Err(closed) => {
            let ends = none_started(closed.givens().workers, ends);
            let outputs = Vec::new(alloc);
            ExecFault::Unsettled(Unsettled::new(closed, ends, outputs, in_hand))
        }
    }
}
