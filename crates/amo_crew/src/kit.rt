//! All that is made before the shared state and the threads.
ghost use Rattle.std.specs.Prelude.{◌≡◌, [], IfOk};
ghost use Rattle.amo_crew.specs.Kits.{IsKit};

use crate::outcome::End;
use crate::run::{Finish, Member};
use amo_mailbox::{Inlet, Outlet, Queue, outlets};
use amo_params::Givens;
use std::alloc::{AllocError, Global};

/// The needs of a run, apart from the shared state and the registry: the queue, and lists with
/// enough room. Once a thread was started, nothing takes memory before the final accounting.
#[derive(Drop)]
pub(crate) struct Kit<P, Out> {
    pub queue: Queue<Out>,
    pub inlet: Inlet<Out>,
    /// The outlets of the workers that are still to be hired, from worker 1 on. The outlets of
    /// workers that ran come back into this list.
    pub outlets: Vec<Outlet<Out>>,
    pub crew: Vec<Member<P, Out>>,
    pub finishes: Vec<Finish<P, Out>>,
    pub ends: Vec<End>,
    pub in_hand: Vec<(u32, u32, P)>,
    /// The payloads go into this list if no thread was started.
    pub spare: Vec<P>,
}

/// Makes room for all that comes.
pub(crate) fn prepare<P: Drop, Out: Drop>(
    alloc: Global,
    givens: Givens,
) -> Result<Kit<P, Out>, AllocError>
    ensures kit { IfOk result (IsKit givens) }
    ensures none { IfOk result (λ kit. kit.crew.items ≡ []) }
{
    let jobs = givens.jobs as usize;
    let workers = givens.workers as usize;
    let crew = Vec::with_capacity(alloc, workers)?;
    let finishes = Vec::with_capacity(alloc, workers)?;
    let ends = Vec::with_capacity(alloc, workers)?;
    let in_hand = Vec::with_capacity(alloc, workers)?;
    let spare = Vec::with_capacity(alloc, jobs)?;
    let (queue, inlet, outlets) = outlets(alloc, givens)?;
    Ok(Kit {
        queue,
        inlet,
        outlets,
        crew,
        finishes,
        ends,
        in_hand,
        spare,
    })
}
