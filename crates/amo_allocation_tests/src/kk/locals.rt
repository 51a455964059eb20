//! One worker's local machine, its next event, and looks at its state.
//!
//! `tests/amo_algorithm_tests` has a link to this file, so that both crates use it.
use amo_kk::{Local, Phase, Shown, Want};
use amo_params::Givens;
use std::alloc::Global;
use std::process::Abort;
use std::test::Fail;

/// Returns worker p of these givens. The test fails if they have fewer workers.
pub(super) fn machine(
    alloc: Global,
    rt: &impl Abort,
    numbers: (u64, u64, u64),
    p: u32,
) -> Result<Local, Fail> {
    let givens = Givens::try_new(numbers.0, numbers.1, numbers.2)?;
    assert!(rt; 1 <= p && p <= givens.workers());
    Ok(Local::new(alloc, givens, p)?)
}

/// The worker's next event, in which a load gives v.
pub(super) fn event(rt: &impl Abort, local: &mut Local, v: u64) -> Shown {
    let jobs = local.givens().jobs();
    match local.want() {
        Want::LoadNext(_) => {
            assert!(rt; v <= jobs as u64);
            local.told(v)
        }
        Want::LoadDone(_, k) => {
            assert!(rt; v <= jobs as u64);
            assert!(rt; v == 0 || k != jobs + 1);
            local.told(v)
        }
        Want::StoreNext(_) | Want::StoreClaim(_, _) | Want::StoreDone(_, _) => local.stored(),
        Want::Nothing => Shown::Quiet,
    }
}

/// Returns true if the worker knows j, and whether it has seen j announced.
pub(super) fn sight(rt: &impl Abort, local: &Local, j: u32) -> (bool, bool) {
    let jobs = local.givens().jobs();
    assert!(rt; 1 <= j && j <= jobs);
    (local.knows(j), local.tried(j))
}

/// How many entries of the row of worker q were read.
pub(super) fn front(rt: &impl Abort, local: &Local, q: u32) -> u32 {
    let workers = local.givens().workers();
    let number = local.number();
    assert!(rt; 1 <= q && q <= workers && q != number);
    local.read_of(q)
}

/// Returns true if the worker has ended, and wants nothing more.
pub(super) fn is_at_its_end(local: &Local) -> bool {
    local.phase() == Phase::Over && local.want() == Want::Nothing && local.ended()
}

/// Returns true if the worker can't leave, nor has left.
pub(super) fn stays(local: &Local) -> bool {
    !local.has_left() && !local.can_leave()
}

/// Returns true if the worker has claimed and done these jobs, in this order and so many events.
pub(super) fn has_performed(local: &Local, jobs: &[u32], steps: u64) -> bool {
    local.claims() == jobs && local.dones() == jobs && local.steps() == steps
}
