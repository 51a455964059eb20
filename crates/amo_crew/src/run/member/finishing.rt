//! How a member finishes.
ghost use Rattle.std.specs.Prelude.{◌≡◌, IfOk, IfErr};
ghost use Rattle.amo_words.specs.Faces.{machine};
ghost use Rattle.amo_claims.specs.Calls.{worker_in};
ghost use Rattle.amo_crew.specs.declared.run.member.Ran.{Ran};
ghost use Rattle.amo_crew.specs.Crew.{IsFinishOf, IsRunOf, TellsStart};

use crate::run::member::{Finish, Ran, Uncalled};
use crate::run::threads::Runs;
use amo_claims::Work;
use std::thread::{PromisedHandle, SpawnError, Threads};

/// Joins the thread of a member that was to run so. If it could not be started, the member's run
/// comes back, and wasn't called.
pub(crate) fn finish_of<'a, P: Drop, W: Work<P>, F: FnOnce() -> Ran<P, W::Out> + Drop, R: Threads>(
    rt: &R,
    _runs: Runs<'a, P, W>,
    child: Result<PromisedHandle<Ran<P, W::Out>, Runs<'a, P, W>>, SpawnError<F>>,
) -> Finish<P, W::Out>
where
    W::Out: Drop,
    requires promise { IfOk child (λ h. (h.promise.0.now ≡ _runs.0.now) × (h.promise.1.now ≡ _runs.1.now) × (h.promise.2.now ≡ _runs.2.now) × (h.promise.3.value ≡ _runs.3.value)) }
    requires uncalled { IfErr child (λ e. F.pre e.value) }
    requires gives { IfErr child (λ e. (r : Ran P W.Out) → F.post e.value r → IsRunOf (W.related _runs.2.now) _runs.1.now _runs.0.now.table_id _runs.3.value r) }
    ensures run { IsFinishOf (W.related _runs.entry.2.now) _runs.entry.1.now _runs.entry.0.now.table_id _runs.entry.3.value result }
    ensures started { TellsStart child.entry result }
{
    match child {
        Ok(child) => Finish::Ran(child.join(rt)),
        Err(_) => Finish::NotStarted(Uncalled(())),
    }
}
