//! How a queue, its inlet and its outlets are made.
ghost use Rattle.std.specs.Prelude.{◌≡◌, ◌+◌, ◌<◌, ◌≤◌, [], All, IfOk, map};
ghost use Rattle.std.specs.List.{range_with_len};
ghost use Rattle.amo_mailbox.specs.declared.queue.TheConstants.{PLACES};
ghost use Rattle.amo_mailbox.specs.Endpoints.{IsNewInletOf, IsNewOutletOf, places};

use crate::inlet::Inlet;
use crate::outlet::Outlet;
use crate::queue::{PLACES, Passes, Queue, Ring};
use amo_params::Givens;
use std::alloc::{AllocError, Global};

/// Returns a queue, its inlet and its outlets, for so many jobs and workers. Fails if there was no
/// memory.
fn outlets_for<Out: Drop>(
    alloc: Global,
    jobs: u32,
    workers: u32,
) -> Result<(Queue<Out>, Inlet<Out>, Vec<Outlet<Out>>), AllocError>
    ensures places { IfOk result (λ r. places r.0 ≡ PLACES) }
    ensures inlet { IfOk result (λ r. IsNewInletOf r.0 jobs r.1) }
    ensures outlets { IfOk result (λ r. All (λ o. IsNewOutletOf r.0 jobs o) r.2.items) }
    ensures workers { IfOk result (λ r. map (λ o. o.worker) r.2.items ≡ map (λ k. k + 1) (range_with_len 0 workers)) }
{
    let taken = Vec::with_capacity(alloc, jobs as usize)?;
    let mut outlets = Vec::with_capacity(alloc, workers as usize)?;
    let (ring, mut pass) = Ring::<Out>::ruled(alloc, PLACES)?;
    let queue = Queue { ring };
    for before in 0..workers {
        let kept = Vec::with_capacity(alloc, jobs as usize)?;
        let port = queue.ring.another::<Passes>(&mut pass);
        outlets.push_reserved(Outlet::new(&queue, port, before + 1, kept, jobs));
    }
    let inlet = Inlet {
        pass,
        taken,
        room: jobs,
    };
    Ok((queue, inlet, outlets))
}

/// Returns a queue of 64 places, its inlet, and an outlet for each worker in the order of their
/// numbers. Inlet and outlets have room for as many outputs as there are jobs.
///
/// # Errors
///
/// `AllocError` if memory is refused.
pub fn outlets<Out: Drop>(
    alloc: Global,
    givens: Givens,
) -> Result<(Queue<Out>, Inlet<Out>, Vec<Outlet<Out>>), AllocError>
    ensures places { IfOk result (λ r. places r.0 ≡ PLACES) }
    ensures inlet { IfOk result (λ r. IsNewInletOf r.0 givens.jobs r.1) }
    ensures outlets { IfOk result (λ r. All (λ o. IsNewOutletOf r.0 givens.jobs o) r.2.items) }
    ensures workers { IfOk result (λ r. map (λ o. o.worker) r.2.items ≡ map (λ k. k + 1) (range_with_len 0 givens.workers)) }
{
    outlets_for(alloc, givens.jobs, givens.workers)
}
