//! Each worker in a thread of its own.
ghost use Rattle.std.specs.Prelude.{List, ◌≡◌, ◌+◌, ◌≤◌, [], ◌++◌, vec_len, vec_capacity, All};
ghost use Rattle.std.specs.List.{AllZip};
ghost use Rattle.amo_mailbox.specs.Endpoints.{IsInletOf};
ghost use Rattle.amo_crew.specs.Crew.{MayRun, IsFinishOf, IsRunOf, MayStart, HasEnded};

use crate::run::member::{Finish, Member, Ran, finish_of};
use crate::run::running::run_member;
use amo_claims::Work;
use amo_mailbox::{Inlet, Queue};
use amo_words::Floor;
use std::snapshot::Snapshot;
use std::sync::Wait;
use std::thread;
use std::thread::{Promise, Scope, Threads};

/// The promise of a member's thread: its run.
#[derive(Drop)]
pub(crate) struct Runs<'a, P: Drop, W: Work<P>>(
    &'a Floor<P>,
    &'a Queue<W::Out>,
    &'a W,
    Snapshot<Member<P, W::Out>>,
);

impl<'a, P: Drop, W: Work<P>> Promise<Ran<P, W::Out>> for Runs<'a, P, W> {
    ghost use Rattle.amo_crew.specs.Crew.{IsRunOf};

    ghost kept_by = { λ p r. IsRunOf (W.related p.2.now) p.1.now p.0.now.table_id p.3.value r };
}

/// Takes all outputs that stand in the queue.
pub(crate) fn take_all<Out: Drop, R: Wait>(rt: &R, queue: &Queue<Out>, inlet: &mut Inlet<Out>)
    requires { IsInletOf queue.now inlet.old }
    ensures belong { IsInletOf queue.now inlet.new }
    ensures room { inlet.new.room ≡ inlet.old.room }
{
    for _ in rt.forever() {
        if !inlet.take(rt, queue) {
            return;
        }
    }
    unreachable!()
}

/// Starts a thread for the last member, runs those before it, takes the outputs in the queue, and
/// joins the thread.
fn run_from<'s, E, P: Send + Drop + 's, W: Work<P> + Sync + 's, R: Threads + Wait + Sync + 's>(
    rt: &'s R,
    scope: &Scope<'s, E>,
    floor: &'s Floor<P>,
    queue: &'s Queue<W::Out>,
    work: &'s W,
    inlet: &mut Inlet<W::Out>,
    mut crew: Vec<Member<P, W::Out>>,
    finishes: &mut Vec<Finish<P, W::Out>>,
)
where
    W::Out: Send + Drop + 's,
    requires crew { All (MayRun queue.now floor.now.table_id) crew.items }
    requires inlet { IsInletOf queue.now inlet.old }
    requires room { vec_len finishes.old + vec_len crew ≤ vec_capacity finishes.old }
    ensures finishes { (fs : List (Finish P W.Out)) × (finishes.new.items ≡ finishes.old.items ++ fs) × AllZip (IsFinishOf (W.related work.now) queue.now floor.now.table_id) crew.items fs }
    ensures inlet { IsInletOf queue.now inlet.new }
    ensures inlet_room { inlet.new.room ≡ inlet.old.room }
    ensures len { vec_len finishes.new ≡ vec_len finishes.old + vec_len crew }
    ensures capacity { vec_capacity finishes.new ≡ vec_capacity finishes.old }
{
    let Some(member) = crew.pop() else {
        return;
    };
    let before = Snapshot::of(&member);
    let runs = Runs(floor, queue, work, before);
    let promise = Runs(floor, queue, work, Snapshot::of(&member));
    let child = scope.spawn_with(
        promise,
        move || -> Ran<P, W::Out>
            requires { MayRun queue.now floor.now.table_id member }
            ensures { IsRunOf (W.related work.entry.now) queue.entry.now floor.entry.now.table_id member result }
        { run_member(rt, floor, queue, work, member) },
    );
    run_from(rt, scope, floor, queue, work, inlet, crew, finishes);
    take_all(rt, queue, inlet);
    finishes.push_reserved(finish_of(rt, runs, child));
}

/// Runs each member in a thread of its own, the last member's first.
pub(crate) fn run_all<P: Send + Drop, W: Work<P> + Sync, R: Threads + Wait + Sync>(
    rt: &R,
    floor: &Floor<P>,
    queue: &Queue<W::Out>,
    work: &W,
    inlet: Inlet<W::Out>,
    crew: Vec<Member<P, W::Out>>,
    finishes: Vec<Finish<P, W::Out>>,
) -> (Inlet<W::Out>, Vec<Finish<P, W::Out>>)
where
    W::Out: Send + Drop,
    requires crew { MayStart queue.now floor.now.table_id inlet crew.items (vec_capacity finishes) }
    requires finishes { finishes.items ≡ [] }
    ensures { HasEnded (W.related work.now) queue.now floor.now.table_id inlet result.0 crew.items result.1.items }
{
    thread::scope(
        thread::scope_env(),
        rt,
        move |scope| -> (Inlet<W::Out>, Vec<Finish<P, W::Out>>)
            requires crew { MayStart queue.now floor.now.table_id inlet crew.items (vec_capacity finishes) }
            requires finishes { finishes.items ≡ [] }
            ensures { HasEnded (W.related work.entry.now) queue.entry.now floor.entry.now.table_id inlet result.0 crew.items result.1.items }
        {
            let mut inlet = inlet;
            let mut finishes = finishes;
            run_from(
                rt,
                scope,
                floor,
                queue,
                work,
                &mut inlet,
                crew,
                &mut finishes,
            );
            (inlet, finishes)
        },
    )
}
