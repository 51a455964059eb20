//! The opening of a world, calls of one worker, the expected state of a world, and a longest run.
//!
//! `tests/amo_algorithm_tests` has a link to this file, so that both crates use it.
use amo_kk::Leaving;
use amo_params::Givens;
use amo_world::{Event, Turned, World};
use std::alloc::{AllocError, Global};
use std::process::Abort;
use std::test::Fail;

/// The opening world of so many jobs, workers and that threshold.
pub(super) fn opening(alloc: Global, numbers: (u64, u64, u64)) -> Result<World, Fail> {
    let givens = Givens::try_new(numbers.0, numbers.1, numbers.2)?;
    Ok(World::new(alloc, givens)?)
}

/// The answer of a turn of worker p.
pub(super) fn turn(rt: &impl Abort, world: &mut World, p: u32) -> Turned {
    assert!(rt; 1 <= p && p <= world.givens().workers());
    world.turn(p)
}

/// The answer of a stop of worker p.
pub(super) fn halt(rt: &impl Abort, world: &mut World, p: u32) -> bool {
    assert!(rt; 1 <= p && p <= world.givens().workers());
    world.halt(p)
}

/// Asks worker p to leave, and returns the answer.
pub(super) fn leave(rt: &impl Abort, world: &mut World, p: u32) -> Leaving {
    assert!(rt; 1 <= p && p <= world.givens().workers());
    world.leave(p)
}

/// The world has just this history, and just these jobs are unclaimed.
pub(super) fn expect_world(rt: &impl Abort, world: &World, history: &[Event], unclaimed: &[u32]) {
    assert!(rt; world.history() == history);
    assert_eq!(rt; world.unclaimed_len() as usize, unclaimed.len());
    let jobs = world.givens().jobs();
    for k in 0..jobs {
        let j = k + 1;
        assert!(rt; j <= world.givens().jobs());
        assert_eq!(rt; world.is_unclaimed(j), unclaimed.contains(&j), "job {j}");
    }
}

/// Each job claimed and performed by worker 1, and then the ends of all workers: as long as a run
/// can be.
pub(super) fn longest_run(alloc: Global, givens: Givens) -> Result<Vec<Event>, AllocError> {
    let mut events = Vec::new(alloc);
    for k in 0..givens.jobs() {
        events.push(Event::Claimed(1, k + 1))?;
        events.push(Event::Done(1, k + 1))?;
    }
    for k in 0..givens.workers() {
        events.push(Event::Ended(k + 1))?;
    }
    Ok(events)
}
