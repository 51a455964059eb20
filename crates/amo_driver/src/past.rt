//! Intents without an outcome that former processes of a worker left in its journal.
ghost use Rattle.std.specs.Prelude.{◌≡◌, ◌+◌, ◌<◌, ◌∷◌, IfOk, IfErr, OnOk, OnErr, length, drop};
ghost use Rattle.amo_driver.specs.declared.model.Deed.TheVariants.{Noted, Asked as AskedDeed, Fell};
ghost use Rattle.amo_driver.specs.declared.model.Try.TheVariants.{Note, Ask};
ghost use Rattle.amo_driver.specs.Stage.{Stage, Asking};
ghost use Rattle.amo_driver.specs.Course.{stage_asked};
ghost use Rattle.amo_driver.specs.Standing.{MayCall, Moves};
ghost use Rattle.amo_driver.specs.Stops.{AsksTo, HaltsAt};
ghost use Rattle.amo_driver.specs.Life.{AsksOn, asked_after};

use crate::answer::{Heard, JobResult, Reply, Way};
use crate::outside::Failed;
use crate::stop::Stop;

/// An intent of a journal: its serial number, and the number of the line that was to be performed.
#[derive(Clone, Copy, Debug, PartialEq, Eq)]
pub struct Intent {
    pub serial: u64,
    pub line: u64,
}

/// How the asking for intents has ended.
#[derive(Clone, Copy, Debug, PartialEq, Eq)]
pub enum Asked {
    /// Each was asked for, and what became of it is noted, unless it still runs.
    All,
    /// The worker is to leave. The result of the last intent that was asked for is noted, unless
    /// its job still runs.
    Dismissed,
    /// Nothing came in answer for the intent of this serial number, and nothing will. It stays
    /// pending.
    Cut(u64),
}

/// A journal, and a partner that may know the results of its intents. After a call has failed no
/// other is made.
pub trait Past {
    /// The process may be at this stage, by all that it has done. If nothing records that, it may
    /// be at any stage.
    ghost stands: { Self → Stage → Type 0 };

    /// Asks the partner for the result of an intent, and waits for the reply.
    fn was(&mut self, serial: u64, line: u64) -> Result<Reply, Failed>
        requires { MayCall (stands self.old) (Ask serial line) }
        ensures done { IfOk result (λ reply. Moves (stands self.old) (stands self.new) (AskedDeed serial line reply)) }
        ensures fails { OnErr result (Moves (stands self.old) (stands self.new) (Fell (Ask serial line))) };

    /// Puts into the journal what became of an intent, so that every crash from now on leaves it
    /// there.
    fn note(&mut self, serial: u64, answer: JobResult) -> Result<(), Failed>
        requires { MayCall (stands self.old) (Note serial answer) }
        ensures done { OnOk result (Moves (stands self.old) (stands self.new) (Noted serial answer)) }
        ensures fails { OnErr result (Moves (stands self.old) (stands self.new) (Fell (Note serial answer))) };
}

/// Asks for the result of each of these intents, in their order, and notes it before it asks for
/// the next. If the job of an intent still runs, nothing is noted of it. If a reply asks the worker
/// to leave, that result is noted, and nothing else is asked for.
///
/// # Errors
///
/// The reason to stop: a call failed, or a reply was not the one that was awaited. Nothing is asked
/// for or noted after that.
pub fn ask_pending<P: Past>(pending: &[Intent], past: &mut P) -> Result<Asked, Stop>
    requires begins { P.stands past.old (Asking pending.now) }
    ensures ends { IfOk result (λ asked. AsksTo (P.stands past.new) asked) }
    ensures stops { IfErr result (λ e. HaltsAt (P.stands past.new) e) }
{
    for k in 0..pending.len() {
        if let Some(asked) = ask(pending, k, past)? {
            return Ok(asked);
        }
    }
    Ok(Asked::All)
}

/// Asks for the intent at place k.
fn ask<P: Past>(pending: &[Intent], k: usize, past: &mut P) -> Result<Option<Asked>, Stop>
    requires within { k < length pending.now }
    requires stands { P.stands past.old (Asking (drop k pending.now)) }
    ensures turns { IfOk result (λ asked. AsksOn (P.stands past.new) (drop (k + 1) pending.now) asked) }
    ensures stops { IfErr result (λ e. HaltsAt (P.stands past.new) e) }
{
    let intent = pending[k];
    let Ok(reply) = past.was(intent.serial, intent.line) else {
        return Err(Stop::Failed);
    };
    hear(pending, k, intent, reply, past)
}

/// Takes the reply for this intent, the one at place k.
fn hear<P: Past>(
    pending: &[Intent],
    k: usize,
    intent: Intent,
    reply: Reply,
    past: &mut P,
) -> Result<Option<Asked>, Stop>
    requires asked { P.stands past.old (stage_asked (intent ∷ drop (k + 1) pending.now) reply) }
    ensures turns { IfOk result (λ asked. AsksOn (P.stands past.new) (drop (k + 1) pending.now) asked) }
    ensures stops { IfErr result (λ e. HaltsAt (P.stands past.new) e) }
{
    let heard = reply.heard_of(intent.serial)?;
    match heard {
        Heard::Ended(answer, way) => {
            let Ok(()) = past.note(intent.serial, answer) else {
                return Err(Stop::Failed);
            };
            Ok(asked_after(way))
        }
        Heard::Runs(way) => Ok(asked_after(way)),
        Heard::Silence => Ok(Some(Asked::Cut(intent.serial))),
    }
}

/// Returns true if the asking ends with an answer that says this.
fn asked_after(way: Way) -> Option<Asked>
    ensures { result ≡ asked_after way }
{
    match way {
        Way::Go => None,
        Way::Leave => Some(Asked::Dismissed),
    }
}
