//! Worlds and the judge, out of memory, and the calls that take no memory.
use super::worlds::{expect_world, halt, leave, opening, turn};
use Event::Claimed;
use Move::{Halt, Leave, Turn};
use Verdict::FirstBad;
use amo_params::{Givens, Move};
use amo_world::{Event, Verdict, World, judge};
use std::alloc::{AllocError, Global};
use std::process::Abort;
use std::test::Fail;

#[test]
fn refused_world(rt: HostRuntime) {
    if let Ok(givens) = Givens::try_new(5, 2, 2) {
        match World::new(rt.alloc(), givens) {
            Ok(world) => expect_world(&rt, &world, &[], &[1, 2, 3, 4, 5]),
            Err(std::alloc::AllocError) => {}
        }
    }
}

#[test]
fn refused_judge(rt: HostRuntime) {
    if let Ok(givens) = Givens::try_new(2, 2, 2) {
        match judge(rt.alloc(), givens, &[Claimed(1, 1), Claimed(2, 1)]) {
            Ok(verdict) => assert!(rt; verdict == FirstBad(2)),
            Err(AllocError) => {}
        }
    }
}

/// Looks at worker p of the world, and at job j, in every way.
fn look(rt: &impl Abort, world: &World, p: u32, j: u32) {
    let givens = world.givens();
    assert!(rt; 1 <= p && p <= givens.workers() && 1 <= j && j <= givens.jobs());
    let _gone = world.is_gone(p);
    let _heard = world.heard(p);
    let _announced = world.announced(p);
    let _phase = world.local(p).phase();
    let _events = world.history();
    let _turns = world.turns_of(p);
    let _unclaimed = world.is_unclaimed(j);
    let _count = world.unclaimed_len();
    let _performed = world.performed_len();
}

/// Makes each call that takes no memory, in so many rounds. Worker 1 works in all of them; each
/// other worker is stopped or leaves in one of the first seven rounds.
fn call_each(alloc: Global, rt: &impl Abort, rounds: u32) -> Result<(), Fail> {
    let mut world = opening(alloc, (400, 16, 16))?;
    for round in 0..rounds {
        let stopped = 2 + round % 7;
        let leaver = 9 + round % 7;
        let moves = [Turn(1), Halt(stopped), Leave(leaver), Turn(16)];
        assert!(rt; world.in_range(&moves) && !world.in_range(&[Turn(17)]));
        world.run(&moves);
        let _turned = turn(rt, &mut world, leaver);
        let _stopped = halt(rt, &mut world, leaver);
        let _left = leave(rt, &mut world, stopped);
        look(rt, &world, 1, round + 1);
        if !world.is_gone(1) {
            let _alone = world.run_alone(1);
        }
        let _held = leave(rt, &mut world, 1);
    }
    Ok(())
}

#[test]
fn calls_take_no_memory_once(rt: HostRuntime) -> Result<(), Fail> {
    call_each(rt.alloc(), &rt, 1)
}

#[test]
fn calls_take_no_memory_often(rt: HostRuntime) -> Result<(), Fail> {
    call_each(rt.alloc(), &rt, 100)
}
