//! A second floor, with one worker in the caller's own loop.
ghost use Rattle.std.specs.Prelude.{◌≡◌, ◌≤◌, [], length, replicate, vec_len, vec_capacity, IfOk, IfErr};
ghost use Rattle.amo_words.specs.Faces.{spots};
ghost use Rattle.amo_words.specs.declared.rule.Spot.TheVariants.{Home};
ghost use Rattle.amo_example_payments.specs.Second.{IsLeftover, IsLeftoverFault};
ghost use Rattle.amo_params.specs.declared.limits.TheConstants.{MAX_JOBS};

use crate::stopping::run_until;
use amo_crew::{Output, Work};
use amo_params::Givens;
use amo_words::{Book, Floor, OpenFault};
use std::alloc::Global;
use std::sync::atomic::AtomicBool;

/// The result of a worker in the caller's own loop.
#[derive(Drop)]
pub(crate) struct Leftover<P, Out> {
    /// The answers to the jobs that it performed, in its order.
    pub(crate) outputs: Vec<Output<Out>>,
    /// The jobs that it has not begun, with their payloads.
    pub(crate) free: Vec<(u32, P)>,
}

/// The reason that a worker in the caller's own loop gave no result.
#[derive(Drop)]
pub(crate) enum LeftoverFault<P: Drop, Out> {
    /// Nothing was performed, and the payloads come back in their order: there was no memory.
    Untried(Vec<P>),
    /// Memory was refused to hire the worker. Nothing was begun: the floor and its book come back
    /// as they were opened.
    Unhired(Floor<P>, Book<P>),
    /// Memory was refused at the settling. The floor and its book come back, to be settled later,
    /// and the answers.
    Unsettled(Floor<P>, Book<P>, Vec<Output<Out>>),
}

/// Hires worker 1 of an open floor of one worker and runs it until the flag is set, then settles.
/// If memory is refused, floor and book come back.
fn run_one<P: Drop, W: Work<P>>(
    alloc: Global,
    flag: &AtomicBool,
    work: &W,
    floor: Floor<P>,
    mut book: Book<P>,
    outputs: Vec<Output<W::Out>>,
) -> Result<Leftover<P, W::Out>, LeftoverFault<P, W::Out>>
where
    W::Out: Drop,
    requires table { book.table_id ≡ floor.table_id }
    requires alone { (book.view.givens.workers ≡ 1) × (spots book ≡ replicate 1 Home) }
    requires room { (outputs.items ≡ []) × (book.view.givens.jobs ≤ vec_capacity outputs) }
    ensures rest { IfOk result (IsLeftover (W.related work.now) book.view.payloads) }
    ensures fault { IfErr result (IsLeftoverFault (W.related work.now) book.view.payloads) }
{
    let Ok(worker) = book.hire(alloc, &floor, 1) else {
        return Err(LeftoverFault::Unhired(floor, book));
    };
    let (gone, outputs) = run_until(flag, &floor, work, 1, worker, outputs);
    gone.collect(&floor, &mut book);
    match floor.settle(alloc, book) {
        Ok(settlement) => Ok(Leftover {
            outputs,
            free: settlement.free,
        }),
        Err((floor, book)) => Err(LeftoverFault::Unsettled(floor, book, outputs)),
    }
}

/// Opens a floor of these payloads and runs one worker there until it has ended, or the flag is
/// set. The caller must give at most 4096 payloads.
pub(crate) fn run_alone<P: Drop, W: Work<P>>(
    alloc: Global,
    flag: &AtomicBool,
    work: &W,
    payloads: Vec<P>,
) -> Result<Leftover<P, W::Out>, LeftoverFault<P, W::Out>>
where
    W::Out: Drop,
    requires few { vec_len payloads ≤ MAX_JOBS }
    ensures rest { IfOk result (IsLeftover (W.related work.now) payloads.items) }
    ensures fault { IfErr result (IsLeftoverFault (W.related work.now) payloads.items) }
{
    let Ok(givens) = Givens::try_new(payloads.len() as u64, 1, 1) else {
        return Err(LeftoverFault::Untried(payloads));
    };
    let Ok(outputs) = Vec::with_capacity(alloc, payloads.len()) else {
        return Err(LeftoverFault::Untried(payloads));
    };
    match Floor::try_new(alloc, givens, payloads) {
        Ok((floor, book)) => run_one(alloc, flag, work, floor, book, outputs),
        Err(OpenFault::WrongCount(payloads) | OpenFault::NoMemory(payloads)) => {
            Err(LeftoverFault::Untried(payloads))
        }
    }
}
