//! A worker's part of a round, and what comes before it.
ghost use Rattle.std.specs.Prelude.{◌≡◌, ℕ, List, Option, Some, true, false, option_map, Err, Ok, IfErr, IfOk, OnErr, OnOk};
ghost use Rattle.amo_params.specs.Givens.{IsWorker};
ghost use Rattle.amo_driver.specs.Course.{first_stage};
ghost use Rattle.amo_driver.specs.Stage.{Asking};
ghost use Rattle.amo_driver.specs.declared.past.Asked.TheVariants.{All};
ghost use Rattle.amo_driver.specs.declared.stop.Stop.TheVariants.{Failed as StopFailed};
ghost use Rattle.amo_driver.specs.Stops.{AsksTo, EndsAt, HaltsAt};
ghost use Rattle.amo_host.specs.Calls.{Fell, Heard, Say};
ghost use Rattle.amo_host.specs.Phase.{Asks, Works, Over};
ghost use Rattle.amo_host.specs.Protocol.{Lives, MayCall, Moves};
ghost use Rattle.amo_runner_protocol.specs.Sayings.{over_text};
ghost use Rattle.amo_worker_life.specs.Halting.{Halts};
ghost use Rattle.amo_worker_life.specs.declared.halt.Halt.TheVariants.{Host as HostFailed};
ghost use Rattle.amo_worker_life.specs.Where.{ends_the_work, idle_at, me_of, over_reply, AsksAt, HasFailed, HasFailedAsking, HasPaid, IsAt, IsOver};
ghost use Rattle.amo_worker_life.specs.Reading.{logs_of};
ghost use Rattle.amo_worker_life.specs.declared.halt.Health.TheVariants.{Fine};
ghost use Rattle.amo_worker_life.specs.declared.part.OverReply.TheVariants.{Stays, Running};

use crate::halt::{Halt, Health};
use crate::round::InRound;
use crate::worker::Worker;
use amo_driver::{Asked, Failed, Intent, LifeEnd, Stop, Way, ask_pending, work};
use amo_host::{Host, RunLock};
use amo_params::Givens;
use amo_runner_protocol::{over_reply_in, over_text};

/// Asks the runner what became of each of these attempts, which the worker's journal has pending,
/// and records each outcome before it asks for the next.
///
/// # Errors
/// As `ask_pending` of the driver.
pub fn ask_past<H: Host>(worker: &mut Worker<H>, pending: &[Intent]) -> Result<Asked, Stop>
    requires begins { H.stands worker.old.host (Asks (me_of worker.old.number worker.old.jobs) (Asking pending.now)) }
    requires fine { worker.old.health ≡ Fine }
    ensures ends { IfOk result (λ asked. AsksTo (AsksAt (H.stands worker.new.host) (me_of worker.new.number worker.new.jobs) worker.new.health worker.new.halt) asked) }
    ensures stops { IfErr result (λ stop. HaltsAt (AsksAt (H.stands worker.new.host) (me_of worker.new.number worker.new.jobs) worker.new.health worker.new.halt) stop) }
    ensures failed { result ≡ Err StopFailed → HasFailedAsking (H.stands worker.new.host) (me_of worker.new.number worker.new.jobs) worker.new.halt }
    ensures lives { Lives (H.stands worker.new.host) }
    ensures fine { IfOk result (λ asked. asked ≡ All → worker.new.health ≡ Fine) }
{
    ask_pending(pending, worker)
}

/// Takes part in a round as this one of its participants, until that part is over, and then appends
/// what the worker owes.
///
/// A line is handed over only after its intent is in the journal. Then the answers and all 16
/// journals are read on, in this order, and no other attempt at the line may stand by them. The
/// runner gets the text of that very line, once. A line that isn't clear gets the outcome
/// `unbegun`, and a line that was handed over never does. An outcome is what the runner replied, to
/// that attempt. It is owed, and appended with the next intent or at the end of the part.
///
/// # Errors
/// As `work` of the driver, and `Failed` if what is owed can't be appended.
pub fn take_part<H: Host>(
    givens: Givens,
    participant: u32,
    round: &mut InRound<H>,
) -> Result<LifeEnd, Stop>
    requires participant { IsWorker givens participant }
    requires begins { H.stands round.old.worker.host (Works (me_of round.old.worker.number round.old.worker.jobs) round.old.lines.items (first_stage givens participant round.old.worker.serial) false (logs_of round.old.logs)) }
    requires fine { round.old.worker.health ≡ Fine }
    ensures ends { IfOk result (λ end. IsOver (H.stands round.new.worker.host) (me_of round.new.worker.number round.new.worker.jobs) round.new.lines.items (logs_of round.new.logs) (λ st. EndsAt (λ s. s ≡ st) end)) }
    ensures failed { result ≡ Err StopFailed → HasFailed (H.stands round.new.worker.host) (me_of round.new.worker.number round.new.worker.jobs) round.new.lines.items (logs_of round.new.logs) round.new.worker.halt }
    ensures lives { Lives (H.stands round.new.worker.host) }
    ensures fine { OnOk result (round.new.worker.health ≡ Fine) }
{
    let serial = round.worker.serial;
    match work(round.worker.alloc, givens, participant, serial, round) {
        Ok(end) => {
            let Ok(()) = round.pay() else {
                return Err(Stop::Failed);
            };
            Ok(end)
        }
        Err(stop) => {
            if ends_the_work(stop) && round.worker.health != Health::Lost {
                let _ = round.pay();
            }
            Err(stop)
        }
    }
}

/// Unlocks the round once this worker's part of it is over. Returns the worker, with the answers
/// and journals that it has read.
pub fn leave<H: Host>(round: InRound<H>) -> Worker<H>
    requires paid { HasPaid (H.stands round.worker.host) (me_of round.worker.number round.worker.jobs) round.lines.items (logs_of round.logs) }
    ensures over { IsAt (H.stands result.host) (Over (me_of result.number result.jobs)) (option_map logs_of result.logs) }
    ensures health { result.health ≡ round.worker.health }
    ensures running { result.has_running ≡ round.worker.has_running }
{
    let InRound { worker, logs, .. } = round;
    let mut worker = worker;
    worker.host.unlock(RunLock::Round);
    worker.logs = Some(logs);
    worker
}

/// The runner's reply to a worker whose part of a round is over, or that has none.
#[derive(Clone, Copy, Debug, PartialEq, Eq)]
pub enum OverReply {
    /// The worker stays for the next round.
    Stays,
    /// It must leave.
    Leaves,
    /// No whole line comes any more.
    Closed,
    /// The line is no reply.
    Invalid,
    /// The runner wasn't asked, since an attempt of this worker still runs: its next process asks
    /// for that.
    Running,
}

/// Reports to the runner that the worker's part of a round is over, and returns the reply. If the
/// worker stays, it has checked the folder once more.
///
/// # Errors
/// `Failed` if the host's call failed.
pub fn stay<H: Host>(worker: &mut Worker<H>) -> Result<OverReply, Failed>
    requires over { IsAt (H.stands worker.old.host) (Over (me_of worker.old.number worker.old.jobs)) (option_map logs_of worker.old.logs) }
    ensures idle { result ≡ Ok Stays → H.stands worker.new.host (idle_at (me_of worker.new.number worker.new.jobs) (option_map logs_of worker.new.logs)) }
    ensures halts { OnErr result (Halts (H.stands worker.new.host) (me_of worker.new.number worker.new.jobs) (option_map logs_of worker.new.logs) worker.new.halt) }
    ensures lives { Lives (H.stands worker.new.host) }
    ensures health { IfOk result (λ reply. worker.new.health ≡ worker.old.health) }
    ensures running { worker.old.has_running ≡ true → (result ≡ Ok Running) × (worker.new ≡ worker.old) }
    ensures only_running { result ≡ Ok Running → worker.old.has_running ≡ true }
{
    if worker.has_running {
        return Ok(OverReply::Running);
    }
    let reply = say_over(worker)?;
    if reply != OverReply::Stays {
        return Ok(reply);
    }
    match worker.host.check_folder() {
        Ok(()) => Ok(reply),
        Err(_) => Err(worker.fails(Halt::Host)),
    }
}

/// Reports to the runner that the worker's part of the round is over, and returns the reply.
///
/// # Errors
/// `Failed` if the host's call failed.
fn say_over<H: Host>(worker: &mut Worker<H>) -> Result<OverReply, Failed>
    requires { MayCall (H.stands worker.old.host) (Say over_text) }
    ensures heard { IfOk result (λ reply. (heard : Option (List ℕ)) × (reply ≡ over_reply heard) × Moves (H.stands worker.old.host) (H.stands worker.new.host) (Heard over_text heard)) }
    ensures fails { OnErr result (Moves (H.stands worker.old.host) (H.stands worker.new.host) (Fell (Say over_text))) }
    ensures halt { OnErr result (worker.new.halt ≡ Some HostFailed) }
    ensures lives { Lives (H.stands worker.new.host) }
    ensures health { IfOk result (λ reply. worker.new.health ≡ worker.old.health) }
    ensures number { worker.new.number ≡ worker.old.number }
    ensures jobs { worker.new.jobs ≡ worker.old.jobs }
    ensures logs { worker.new.logs ≡ worker.old.logs }
{
    match worker.host.say(over_text()) {
        Ok(said) => Ok(over_reply(&said)),
        Err(_) => Err(worker.fails(Halt::Host)),
    }
}

/// Returns the reply that this line is, without its end. No line is `Closed`.
fn over_reply(said: &Option<Vec<u8>>) -> OverReply
    ensures { result ≡ over_reply (option_map (λ line. line.items) said.now) }
{
    let Some(line) = said else {
        return OverReply::Closed;
    };
    match over_reply_in(line) {
        Some(Way::Go) => OverReply::Stays,
        Some(Way::Leave) => OverReply::Leaves,
        None => OverReply::Invalid,
    }
}

/// Returns true if nothing more is due after this stop, so that what is owed may be appended.
fn ends_the_work(stop: Stop) -> bool
    ensures { result ≡ ends_the_work stop }
{
    match stop {
        Stop::Failed | Stop::NoSuchNumber(..) | Stop::NoAnswer(_) | Stop::OtherAnswer(..) => true,
        Stop::NoMemory | Stop::NoSerial | Stop::TooLong => false,
    }
}
