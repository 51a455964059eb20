//! The whole life of a worker's process.
ghost use Rattle.std.specs.Prelude.{◌≡◌, None, option_map, IfErr, IfSome, OnOk};
ghost use Rattle.amo_host.specs.Phase.{Over, Starts, Unborn};
ghost use Rattle.amo_host.specs.Protocol.{Lives};
ghost use Rattle.amo_worker_life.specs.Begin.{EndsWell};
ghost use Rattle.amo_worker_life.specs.Halting.{HasReason};
ghost use Rattle.amo_worker_life.specs.Reading.{logs_of};
ghost use Rattle.amo_worker_life.specs.Where.{idle_at, me_of, HasPaid, IsAt};
ghost use Rattle.amo_worker_life.specs.declared.halt.Health.TheVariants.{Fine};

use crate::beginning::{Begun, Sharing, begin};
use crate::joining::{Joined, Seat, join};
use crate::part::{OverReply, ask_past, leave, stay, take_part};
use crate::round::InRound;
use crate::start::take_number;
use crate::worker::Worker;
use amo_driver::{Asked, LifeEnd, Stop};
use amo_host::Host;
use amo_run_files::RoundFile;

/// How the life of a worker's process ends.
#[derive(Clone, Copy, Debug, PartialEq, Eq)]
pub enum Ending {
    /// No line is open. The list has so many bytes.
    NothingOpen(usize),
    /// By the runner's reply the worker must leave.
    Left,
    /// Nothing more comes from the runner.
    Closed,
    /// The worker's part of a round is over, or it has none, and it doesn't stay: nothing more
    /// comes from the runner, or an attempt of this worker still runs.
    Over,
    /// The runner's reply to `over` is invalid.
    InvalidReply,
    /// It has stopped. After `Stop::Failed` the worker's `halt` says why.
    Stopped(Stop),
    /// It has taken part in more rounds than 64 bits can count.
    TooManyRounds,
}

/// Lives as this worker. It takes its number, and asks what became of the attempts that its journal
/// has pending. Then it takes part in one round after the other, as long as its runner has it stay.
/// The protocol allows each call that it makes, in the phase in which it makes it. So it is
/// wherever the process is killed, and however the calls turn out.
pub fn live<H: Host>(worker: Worker<H>, sharing: Sharing) -> (Worker<H>, Ending)
    requires unborn { H.stands worker.host (Starts worker.number Unborn) }
    requires fine { worker.health ≡ Fine }
    ensures lives { Lives (H.stands result.0.host) }
    // It has stopped since something failed just if there is a reason.
    ensures reason { HasReason result.1 (H.stands result.0.host) (me_of result.0.number result.0.jobs) (option_map logs_of result.0.logs) result.0.halt }
    // It says that no line is open just if none is, by all answers and journals.
    ensures nothing { EndsWell result.1 (me_of result.0.number result.0.jobs) (option_map logs_of result.0.logs) }
{
    let mut worker = worker;
    if let Err(ending) = prepare(&mut worker) {
        return (worker, ending);
    }
    for _round in 0..u64::MAX {
        let (next, ending) = live_a_round(worker, sharing);
        worker = next;
        if let Some(ending) = ending {
            return (worker, ending);
        }
    }
    (worker, Ending::TooManyRounds)
}

/// Takes the worker's number, and asks what became of each attempt that its journal has pending.
///
/// # Errors
/// `Left` or `Closed` by the runner's reply, else `Stopped`.
fn prepare<H: Host>(worker: &mut Worker<H>) -> Result<(), Ending>
    requires unborn { H.stands worker.old.host (Starts worker.old.number Unborn) }
    requires fine { worker.old.health ≡ Fine }
    ensures idle { OnOk result (H.stands worker.new.host (idle_at (me_of worker.new.number worker.new.jobs) (option_map logs_of worker.new.logs))) }
    ensures lives { Lives (H.stands worker.new.host) }
    ensures fine { OnOk result (worker.new.health ≡ Fine) }
    ensures reason { IfErr result (λ ending. HasReason ending (H.stands worker.new.host) (me_of worker.new.number worker.new.jobs) (option_map logs_of worker.new.logs) worker.new.halt) }
    ensures nothing { IfErr result (λ ending. EndsWell ending (me_of worker.new.number worker.new.jobs) (option_map logs_of worker.new.logs)) }
{
    let Ok(pending) = take_number(worker) else {
        return Err(Ending::Stopped(Stop::Failed));
    };
    match ask_past(worker, &pending) {
        Ok(Asked::All) => {
            // It was in no round yet.
            worker.logs = None;
            Ok(())
        }
        Ok(Asked::Dismissed) => Err(Ending::Left),
        Ok(Asked::Cut(_)) => Err(Ending::Closed),
        Err(stop) => Err(Ending::Stopped(stop)),
    }
}

/// Begins a round if nobody is in one, takes its part in the round that there is, and stays for the
/// next one. Returns how the worker's life ends, if it doesn't stay.
fn live_a_round<H: Host>(worker: Worker<H>, sharing: Sharing) -> (Worker<H>, Option<Ending>)
    requires idle { H.stands worker.host (idle_at (me_of worker.number worker.jobs) (option_map logs_of worker.logs)) }
    requires fine { worker.health ≡ Fine }
    ensures idle { result.1 ≡ None → H.stands result.0.host (idle_at (me_of result.0.number result.0.jobs) (option_map logs_of result.0.logs)) }
    ensures lives { Lives (H.stands result.0.host) }
    ensures fine { result.1 ≡ None → result.0.health ≡ Fine }
    ensures reason { IfSome result.1 (λ ending. HasReason ending (H.stands result.0.host) (me_of result.0.number result.0.jobs) (option_map logs_of result.0.logs) result.0.halt) }
    ensures nothing { IfSome result.1 (λ ending. EndsWell ending (me_of result.0.number result.0.jobs) (option_map logs_of result.0.logs)) }
{
    let mut worker = worker;
    match begin(&mut worker, sharing) {
        Ok(Begun::NothingOpen(len)) => return (worker, Some(Ending::NothingOpen(len))),
        Ok(Begun::Round | Begun::Elsewhere) => {}
        Err(_) => return (worker, Some(Ending::Stopped(Stop::Failed))),
    }
    let (seat, logs) = match join(&mut worker) {
        Ok(Joined::TakesPart(seat, logs)) => (seat, logs),
        Ok(Joined::PassesBy) => return stay_on(worker),
        Err(_) => return (worker, Some(Ending::Stopped(Stop::Failed))),
    };
    let Seat {
        file,
        givens,
        participant,
    } = seat;
    let RoundFile { header, .. } = file;
    let lines = header.lines;
    let mut round = InRound {
        worker,
        lines,
        logs,
    };
    match take_part(givens, participant, &mut round) {
        Ok(LifeEnd::Over) if !round.worker.is_dismissed => stay_after(round),
        Ok(LifeEnd::Over | LifeEnd::Left) => (round.into_worker(), Some(Ending::Left)),
        Ok(LifeEnd::Cut(_)) => (round.into_worker(), Some(Ending::Closed)),
        Err(stop) => (round.into_worker(), Some(Ending::Stopped(stop))),
    }
}

/// Unlocks a round once this worker's part of it is over, and stays for the next one if the runner
/// has it stay.
fn stay_after<H: Host>(round: InRound<H>) -> (Worker<H>, Option<Ending>)
    requires paid { HasPaid (H.stands round.worker.host) (me_of round.worker.number round.worker.jobs) round.lines.items (logs_of round.logs) }
    requires fine { round.worker.health ≡ Fine }
    ensures idle { result.1 ≡ None → H.stands result.0.host (idle_at (me_of result.0.number result.0.jobs) (option_map logs_of result.0.logs)) }
    ensures lives { Lives (H.stands result.0.host) }
    ensures fine { result.1 ≡ None → result.0.health ≡ Fine }
    ensures reason { IfSome result.1 (λ ending. HasReason ending (H.stands result.0.host) (me_of result.0.number result.0.jobs) (option_map logs_of result.0.logs) result.0.halt) }
    ensures nothing { IfSome result.1 (λ ending. EndsWell ending (me_of result.0.number result.0.jobs) (option_map logs_of result.0.logs)) }
{
    stay_on(leave(round))
}

/// Stays for the next round, after it has unlocked this one, if the runner has the worker stay.
fn stay_on<H: Host>(worker: Worker<H>) -> (Worker<H>, Option<Ending>)
    requires over { IsAt (H.stands worker.host) (Over (me_of worker.number worker.jobs)) (option_map logs_of worker.logs) }
    requires fine { worker.health ≡ Fine }
    ensures idle { result.1 ≡ None → H.stands result.0.host (idle_at (me_of result.0.number result.0.jobs) (option_map logs_of result.0.logs)) }
    ensures lives { Lives (H.stands result.0.host) }
    ensures fine { result.1 ≡ None → result.0.health ≡ Fine }
    ensures reason { IfSome result.1 (λ ending. HasReason ending (H.stands result.0.host) (me_of result.0.number result.0.jobs) (option_map logs_of result.0.logs) result.0.halt) }
    ensures nothing { IfSome result.1 (λ ending. EndsWell ending (me_of result.0.number result.0.jobs) (option_map logs_of result.0.logs)) }
{
    let mut worker = worker;
    let ending = match stay(&mut worker) {
        Ok(OverReply::Stays) => None,
        Ok(OverReply::Leaves) => Some(Ending::Left),
        Ok(OverReply::Closed | OverReply::Running) => Some(Ending::Over),
        Ok(OverReply::Invalid) => Some(Ending::InvalidReply),
        Err(_) => Some(Ending::Stopped(Stop::Failed)),
    };
    (worker, ending)
}
