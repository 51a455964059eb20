//! How workers are collected after their threads.
ghost use Rattle.std.specs.Prelude.{ℕ, List, ◌≡◌, ◌+◌, ◌≤◌, ◌++◌, vec_len, All};
ghost use Rattle.amo_params.specs.declared.givens.Givens.{Givens};
ghost use Rattle.amo_params.specs.declared.limits.TheConstants.{MAX_WORKERS};
ghost use Rattle.amo_mailbox.specs.declared.queue.Queue.{Queue};
ghost use Rattle.amo_words.specs.Faces.{Seated, spots};
ghost use Rattle.amo_crew.specs.Crew.{AreFinished};
ghost use Rattle.amo_crew.specs.Collecting.{AreBack, AreCollected, Collects, RanAt, HasRoomFor, ends_in};

use crate::outcome::End;
use crate::run::{Finish, Ran};
use amo_claims::Work;
use amo_mailbox::Outlet;
use amo_words::{Book, Floor};

/// The values that are collected in addition to the registry.
#[derive(Drop)]
pub(crate) struct Collected<P, Out> {
    pub outlets: Vec<Outlet<Out>>,
    pub ends: Vec<End>,
    pub in_hand: Vec<(u32, u32, P)>,
}

/// Collects worker p, if its thread ran.
fn collect_one<P: Drop, Out: Drop>(
    floor: &Floor<P>,
    book: &mut Book<P>,
    p: u32,
    finish: Finish<P, Out>,
    into: &mut Collected<P, Out>,
)
    requires table { book.old.table_id ≡ floor.now.table_id }
    requires worker { RanAt floor.now.table_id finish }
    requires room { HasRoomFor 1 into.old }
    ensures collects { Collects p finish book.old into.old book.new into.new }
    ensures table { book.new.table_id ≡ book.old.table_id }
    ensures room { (n : ℕ) → HasRoomFor (n + 1) into.old → HasRoomFor n into.new }
{
    match finish {
        Finish::Ran(ran) => {
            let Ran {
                gone,
                end,
                outlet,
                in_hand,
            } = ran;
            gone.collect(floor, book);
            into.outlets.push_reserved(outlet);
            into.ends.push_reserved(end);
            if let Some((job, payload)) = in_hand {
                into.in_hand.push_reserved((p, job, payload));
            }
        }
        Finish::NotStarted(_) => into.ends.push_reserved(End::NotStarted),
    }
}

/// Collects the workers whose threads ran, in the order of their numbers, and notes the end of
/// each. Each worker whose thread ran is back, with the end with which it came back.
pub(crate) fn collect_all<P: Drop, W: Work<P>>(
    floor: &Floor<P>,
    book: &mut Book<P>,
    _work: &W,
    mut finishes: Vec<Finish<P, W::Out>>,
    into: &mut Collected<P, W::Out>,
)
where
    W::Out: Drop,
    requires table { book.old.table_id ≡ floor.now.table_id }
    requires few { vec_len finishes ≤ MAX_WORKERS }
    requires workers { All (RanAt floor.now.table_id) finishes.items }
    requires room { HasRoomFor (vec_len finishes) into.old }
    ensures collected { (queue : Queue W.Out) (g : Givens) (payloads : List P) (budgets : List ℕ) → AreFinished (W.related _work.now) queue floor.now.table_id g payloads budgets finishes.items → vec_len finishes ≡ g.workers
        → AreCollected (W.related _work.now) queue floor.now.table_id g payloads budgets 0 book.old into.old
        → AreCollected (W.related _work.now) queue floor.now.table_id g payloads budgets g.workers book.new into.new × AreBack g (spots book.new) finishes.items }
    ensures ends { into.new.ends.items ≡ into.old.ends.items ++ ends_in finishes.items }
    ensures table { book.new.table_id ≡ book.old.table_id }
{
    let count = finishes.len();
    for before in 0..count {
        let Some(finish) = finishes.pop() else {
            unreachable!()
        };
        collect_one(floor, book, before as u32 + 1, finish, into);
    }
}
