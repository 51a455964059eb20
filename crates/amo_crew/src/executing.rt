//! How jobs are executed in threads.
ghost use Rattle.std.specs.Prelude.{◌≡◌, ℕ, List, [], length, replicate, IfOk, IfErr};
ghost use Rattle.amo_words.specs.declared.rule.Spot.TheVariants.{Home};
ghost use Rattle.amo_words.specs.Rule.{AllStand};
ghost use Rattle.amo_words.specs.Faces.{spots};
ghost use Rattle.amo_crew.specs.Outcomes.{IsOutcome, AllStarted};
ghost use Rattle.amo_crew.specs.Refusing.{Refuses};
ghost use Rattle.amo_crew.specs.Unsettling.{IsUnsettled};
ghost use Rattle.amo_crew.specs.Collecting.{TellsCrew};
ghost use Rattle.amo_crew.specs.Hired.{AreHired};
ghost use Rattle.amo_crew.specs.Kits.{IsKit};

use crate::fault::ExecFault;
use crate::kit::{Kit, prepare};
use crate::outcome::Outcome;
use crate::plan::StopPlan;
use crate::run::{hire_all, run_all};
use crate::settle::{Collected, Unsettled, call_off, collect_all, conclude};
use amo_claims::Work;
use amo_params::Givens;
use amo_words::{Book, Floor, OpenFault};
use std::alloc::Global;
use std::sync::Wait;
use std::thread::Threads;

/// Runs each worker in a thread of its own, collects those that ran, and gathers their outputs.
fn run_crew<P: Send + Drop, W: Work<P> + Sync, R: Threads + Wait + Sync>(
    rt: &R,
    work: &W,
    floor: Floor<P>,
    mut book: Book<P>,
    kit: Kit<P, W::Out>,
) -> Unsettled<P, W::Out>
where
    W::Out: Send + Drop,
    requires hired { (budgets : List ℕ) × AreHired floor.table_id floor.givens book.view.payloads budgets book kit }
    requires all { length kit.crew.items ≡ floor.givens.workers }
    ensures unsettled { (budgets : List ℕ) → AreHired floor.table_id floor.givens book.view.payloads budgets book kit
        → IsUnsettled (W.related work.now) floor.givens book.view.payloads budgets result }
    ensures crew { TellsCrew (W.related work.now) kit.queue floor.table_id floor.givens kit.crew.items result }
{
    let Kit {
        queue,
        inlet,
        outlets,
        crew,
        finishes,
        ends,
        in_hand,
        spare: _,
    } = kit;
    let (inlet, finishes) = run_all(rt, &floor, &queue, work, inlet, crew, finishes);
    let mut into = Collected {
        outlets,
        ends,
        in_hand,
    };
    collect_all(&floor, &mut book, work, finishes, &mut into);
    let Collected {
        outlets,
        ends,
        in_hand,
    } = into;
    let outputs = inlet.gather(rt, queue, outlets);
    Unsettled::new(floor.close(book), ends, outputs, in_hand)
}

/// Hires the workers of an open floor and runs them.
fn run_on<P: Send + Drop, W: Work<P> + Sync, R: Threads + Wait + Sync>(
    rt: &R,
    alloc: Global,
    work: &W,
    plan: &StopPlan,
    floor: Floor<P>,
    mut book: Book<P>,
    mut kit: Kit<P, W::Out>,
) -> Result<Outcome<P, W::Out>, ExecFault<P, W::Out>>
where
    W::Out: Send + Drop,
    requires tied { (book.table_id ≡ floor.table_id) × (floor.givens ≡ plan.now.givens) × (book.view.givens ≡ plan.now.givens) }
    requires count { length book.view.payloads ≡ plan.now.givens.jobs }
    requires home { spots book ≡ replicate plan.now.givens.workers Home }
    requires stand { AllStand plan.now.givens book.view.seen (spots book) }
    requires kit { IsKit plan.now.givens kit }
    requires none { kit.crew.items ≡ [] }
    ensures done { IfOk result (λ o. IsOutcome (W.related work.now) plan.now.givens book.view.payloads plan.now.budgets o × AllStarted o.ends.items) }
    ensures refused { IfErr result (Refuses (W.related work.now) plan.now.givens book.view.payloads plan.now.budgets) }
{
    match hire_all(alloc, &floor, &mut book, plan, &mut kit) {
        Ok(()) => conclude(alloc, run_crew(rt, work, floor, book, kit)),
        Err(_) => Err(call_off(alloc, floor, book, kit)),
    }
}

/// Executes the jobs in threads, one for each worker, until each worker has ended or has used up
/// its step budget. Job j gets the payload at place j of the list, counted from 1. A worker whose
/// budget is used up with a job in its hand doesn't perform it. The plan must be for these givens.
/// It blocks until all threads have ended. It takes memory before the first thread and at the final
/// accounting, and none in between.
///
/// # Errors
///
/// - `WrongCount` if there aren't exactly as many payloads as jobs: they come back in their order;
/// - `NoMemory` if memory is refused before the first thread: the payloads come back in their
///   order;
/// - `ThreadRefused` if a thread could not be started: the outcome holds for the others;
/// - `Unsettled` if memory is refused at the final accounting: call `settle` on what comes back.
///
/// If several apply, the first of `WrongCount`, `NoMemory`, `Unsettled` and `ThreadRefused` is
/// returned.
///
/// # Examples
///
/// ```
/// use amo_crew::{ExecFault, StopPlan, Work, execute};
/// use amo_params::{Givens, MAX_STEPS};
///
/// #[derive(Drop)]
/// struct Letter(u32); // to a house; it has no Clone, so it is sent at most once
///
/// struct Post;
///
/// impl Work<Letter> for Post {
///     ghost use Rattle.std.specs.Prelude.{◌≡◌};
///
///     type Out = u32;
///
///     ghost related = { λ _ _ _ letter house. house ≡ letter.0 };
///
///     fn perform(&self, _worker: u32, _job: u32, letter: Letter) -> u32 {
///         letter.0 // the effect on the world comes here
///     }
/// }
///
/// let givens = Givens::try_new(4, 2, 2)?;
/// let plan = StopPlan::try_new(rt.alloc(), givens, &[MAX_STEPS; 2])?;
/// let letters = (11..=14).map(|house| Letter(house)).collect(rt.alloc())?;
/// let outcome = match execute(&rt, rt.alloc(), givens, letters, &Post, &plan) {
///     Ok(outcome) => outcome,
///     Err(ExecFault::ThreadRefused(outcome)) => outcome,
///     Err(ExecFault::Unsettled(rest)) => rest.settle(rt.alloc())?,
///     Err(fault) => return Err(Fail::from(fault)),
/// };
/// for output in outcome.outputs.iter() {
///     assert_eq!(rt; output.out, output.job + 10);
/// }
/// assert!(rt; outcome.in_hand.is_empty());
/// assert_eq!(rt; outcome.outputs.len() + outcome.settlement.free.len(), 4);
/// ```
pub fn execute<P: Send + Drop, W: Work<P> + Sync, R: Threads + Wait + Sync>(
    rt: &R,
    alloc: Global,
    givens: Givens,
    payloads: Vec<P>,
    work: &W,
    plan: &StopPlan,
) -> Result<Outcome<P, W::Out>, ExecFault<P, W::Out>>
where
    W::Out: Send + Drop,
    requires plan { plan.now.givens ≡ givens }
    ensures done { IfOk result (λ o. IsOutcome (W.related work.now) givens payloads.items plan.now.budgets o × AllStarted o.ends.items) }
    ensures refused { IfErr result (Refuses (W.related work.now) givens payloads.items plan.now.budgets) }
{
    if payloads.len() != givens.jobs as usize {
        return Err(ExecFault::WrongCount(payloads));
    }
    let Ok(kit) = prepare(alloc, givens) else {
        return Err(ExecFault::NoMemory(payloads));
    };
    match Floor::try_new(alloc, givens, payloads) {
        Ok((floor, book)) => run_on(rt, alloc, work, plan, floor, book, kit),
        Err(OpenFault::WrongCount(payloads)) => Err(ExecFault::WrongCount(payloads)),
        Err(OpenFault::NoMemory(payloads)) => Err(ExecFault::NoMemory(payloads)),
    }
}
