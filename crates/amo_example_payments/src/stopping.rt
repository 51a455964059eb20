//! A loop of the caller's own over the states of a worker, which can be asked to stop.
ghost use Rattle.std.specs.Prelude.{◌≡◌, ◌≤◌, [], length, vec_len, vec_capacity};
ghost use Rattle.amo_words.specs.Faces.{Seated, machine};
ghost use Rattle.amo_claims.specs.Calls.{worker_in};
ghost use Rattle.amo_example_payments.specs.Stopping.{HasPaid, IsEmpty, HasEnded, EndsIfOver, StaysAs};

use amo_claims::{After, Go, Gone, Ready, Work, begin};
use amo_crew::Output;
use amo_words::{Floor, Worker};
use std::sync::atomic::{AtomicBool, Ordering};

/// Takes one step of a ready worker. A job that it claims it performs and files at once, and the
/// answer goes into the list.
fn turn<P: Drop, W: Work<P>>(
    floor: &Floor<P>,
    work: &W,
    number: u32,
    ready: Ready<P>,
    outputs: &mut Vec<Output<W::Out>>,
) -> After<P>
    requires table { ready.table_id ≡ floor.now.table_id }
    requires number { (machine ready).number ≡ number }
    requires few { vec_len outputs.old ≤ length (machine ready).state.dones }
    requires room { ready.view.givens.jobs ≤ vec_capacity outputs.old }
    ensures paid { (b : Seated P) → HasPaid (W.related work.now) b ready outputs.old.items → HasPaid (W.related work.now) b (worker_in result) outputs.new.items }
    ensures empty { IsEmpty (worker_in result) }
    ensures ended { EndsIfOver result }
    ensures capacity { vec_capacity outputs.new ≡ vec_capacity outputs.old }
{
    match ready.go(floor) {
        Go::More(next) => After::More(next),
        Go::Over(gone) => After::Over(gone),
        Go::Got(held) => {
            let job = held.job();
            let (after, out) = held.perform(work).file(floor);
            outputs.push_reserved(Output {
                worker: number,
                job,
                out,
            });
            after
        }
    }
}

/// Takes a worker that has nothing in its hand off the floor. A worker that goes on takes back its
/// announcement first, so that the job is free to others.
fn leave<P: Drop>(floor: &Floor<P>, after: After<P>) -> Gone<P>
    requires table { (worker_in after).table_id ≡ floor.now.table_id }
    requires empty { IsEmpty (worker_in after) }
    requires ended { EndsIfOver after }
    ensures same { StaysAs (worker_in after) result }
    ensures empty { IsEmpty result }
    ensures ended { HasEnded result }
{
    match after {
        After::Over(gone) => gone,
        After::More(ready) => ready.leave(floor),
    }
}

/// Runs a hired worker until it has ended, or the flag is set. It looks at the flag before each
/// step, and never while a job is in its hand: it performs and files a claimed job first. It may be
/// called in as many threads as there are workers, with one flag. The list gets the answers, and
/// needs room for as many as there are jobs. Afterwards the worker has ended or has left, so that
/// its announcement keeps nothing from others. No contract states when the flag is seen.
pub(crate) fn run_until<P: Drop, W: Work<P>>(
    flag: &AtomicBool,
    floor: &Floor<P>,
    work: &W,
    number: u32,
    worker: Worker<P>,
    mut outputs: Vec<Output<W::Out>>,
) -> (Gone<P>, Vec<Output<W::Out>>)
    requires table { worker.table_id ≡ floor.now.table_id }
    requires number { (machine worker).number ≡ number }
    requires empty { IsEmpty worker }
    requires room { (outputs.items ≡ []) × (worker.view.givens.jobs ≤ vec_capacity outputs) }
    ensures paid { HasPaid (W.related work.now) worker result.0 result.1.items }
    ensures empty { IsEmpty result.0 }
    ensures ended { HasEnded result.0 }
{
    let mut after = begin(worker);
    for _ in 0..u64::MAX {
        if flag.load(Ordering::SeqCst) {
            break;
        }
        match after {
            After::Over(gone) => return (gone, outputs),
            After::More(ready) => after = turn(floor, work, number, ready, &mut outputs),
        }
    }
    (leave(floor, after), outputs)
}
