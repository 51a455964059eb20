//! A local machine, out of memory, and its calls that take none.
use super::locals::{event, front, has_performed, is_at_its_end, machine, sight, stays};
use amo_kk::{Local, Shown, Want};
use amo_params::Givens;
use std::alloc::{AllocError, Global};
use std::process::Abort;
use std::test::Fail;

#[test]
fn refused_machine(rt: HostRuntime) {
    if let Ok(givens) = Givens::try_new(3, 1, 1) {
        assert_eq!(rt; givens.workers(), 1);
        match Local::new(rt.alloc(), givens, 1) {
            Ok(local) => assert!(rt; local.want() == Want::StoreNext(1)),
            Err(AllocError) => {}
        }
    }
}

/// Returns true if the first worker of two on 4 jobs, with a last look and its leaving, does what
/// it has to.
fn performs_one_and_leaves(rt: &impl Abort, local: &mut Local) -> bool {
    for heard in [0, 0, 3, 0, 0, 0] {
        let _shown = event(rt, local, heard);
    }
    let knows = sight(rt, local, 3) == (true, false) && front(rt, local, 2) == 1;
    let is_here = !is_at_its_end(local) && !stays(local) && local.in_hand() == None;
    let has_done = has_performed(local, &[1], 6);
    assert!(rt; local.can_leave());
    knows && is_here && has_done && local.leave() == Shown::Left
}

/// Makes 100 workers, and takes so many of them through calls that take no memory.
fn use_workers(rt: &impl Abort, alloc: Global, times: usize) -> Result<(), Fail> {
    let mut workers = Vec::new(alloc);
    for _ in 0..100 {
        workers.push(machine(alloc, rt, (4, 2, 2), 1)?)?;
    }
    for worker in workers.iter_mut().take(times) {
        assert!(rt; performs_one_and_leaves(rt, worker));
    }
    Ok(())
}

#[test]
fn takes_no_memory_once(rt: HostRuntime) -> Result<(), Fail> {
    use_workers(&rt, rt.alloc(), 1)
}

#[test]
fn takes_no_memory_often(rt: HostRuntime) -> Result<(), Fail> {
    use_workers(&rt, rt.alloc(), 100)
}
