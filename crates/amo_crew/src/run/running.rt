//! A worker's run.
ghost use Rattle.std.specs.Prelude.{◌≡◌, Some, None};
ghost use Rattle.amo_words.specs.Faces.{machine};
ghost use Rattle.amo_claims.specs.States.{IsReady, Holds};
ghost use Rattle.amo_crew.specs.declared.outcome.End.{End};
ghost use Rattle.amo_crew.specs.Crew.{MayRun, IsRunOf};

use crate::outcome::End;
use crate::run::member::{Member, Ran};
use amo_claims::{After, Go, Gone, Held, Ready, Work};
use amo_mailbox::{Outlet, Output, Queue};
use amo_words::Floor;
use std::sync::Wait;

/// Runs a member's worker until it has ended or has used up its budget.
pub(crate) fn run_member<P: Drop, W: Work<P>, R: Wait>(
    rt: &R,
    floor: &Floor<P>,
    queue: &Queue<W::Out>,
    work: &W,
    member: Member<P, W::Out>,
) -> Ran<P, W::Out>
where
    W::Out: Drop,
    requires member { MayRun queue.now floor.now.table_id member }
    ensures { IsRunOf (W.related work.now) queue.now floor.now.table_id member result }
{
    let Member {
        after,
        mut outlet,
        budget,
    } = member;
    let number = outlet.worker();
    let mut ready = match after {
        After::Over(gone) => return ended(gone, outlet),
        After::More(ready) => ready,
    };
    while ready.steps() < budget {
        match ready.go(floor) {
            Go::More(next) => ready = next,
            Go::Over(gone) => return ended(gone, outlet),
            Go::Got(held) => {
                if held.steps() >= budget {
                    return holding(held, outlet);
                }
                let job = held.job();
                let (after, out) = held.perform(work).file(floor);
                let output = Output {
                    worker: number,
                    job,
                    out,
                };
                outlet.put(rt, queue, output);
                match after {
                    After::More(next) => ready = next,
                    After::Over(gone) => return ended(gone, outlet),
                }
            }
        }
    }
    halted(ready, outlet)
}

/// Returns the result for a worker that has ended.
fn ended<P, Out>(gone: Gone<P>, outlet: Outlet<Out>) -> Ran<P, Out>
    ensures same { (result.gone ≡ gone) × (result.outlet ≡ outlet) }
    ensures end { (result.end ≡ End.Ended (machine gone).state.steps) × (result.in_hand ≡ None) }
{
    let end = End::Ended(gone.steps());
    Ran {
        gone,
        end,
        outlet,
        in_hand: None,
    }
}

/// Returns the result for a worker whose budget is used up, with nothing in its hand.
fn halted<P, Out>(ready: Ready<P>, outlet: Outlet<Out>) -> Ran<P, Out>
    ensures same { (result.gone ≡ ready) × (result.outlet ≡ outlet) }
    ensures ready { IsReady ready }
    ensures end { (result.end ≡ End.Halted (machine ready).state.steps) × (result.in_hand ≡ None) }
{
    let end = End::Halted(ready.steps());
    Ran {
        gone: ready.halt(),
        end,
        outlet,
        in_hand: None,
    }
}

/// Returns the result for a worker whose budget is used up, with a job in its hand.
fn holding<P, Out>(held: Held<P>, outlet: Outlet<Out>) -> Ran<P, Out>
    ensures same { (result.gone ≡ held.worker) × (result.outlet ≡ outlet) }
    ensures holds { Holds held.worker held.job held.payload }
    ensures end { (result.end ≡ End.Halted (machine held.worker).state.steps) × (result.in_hand ≡ Some (held.job, held.payload)) }
{
    let end = End::Halted(held.steps());
    let job = held.job();
    let (gone, payload) = held.halt();
    Ran {
        gone,
        end,
        outlet,
        in_hand: Some((job, payload)),
    }
}
