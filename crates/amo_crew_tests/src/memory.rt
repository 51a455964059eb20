//! Out of memory, and the calls that take no memory.
use super::outcomes::{Echo, expect_each_once, payloads_for};
use super::queues::{put_jobs, take_jobs};
use amo_crew::{End, ExecFault, StopFault, StopPlan, Unsettled, execute, outlets};
use amo_params::Givens;
use std::alloc::Global;
use std::process::Abort;
use std::sync::Wait;
use std::test::Fail;

#[test]
fn refused_plan(rt: HostRuntime) -> Result<(), Fail> {
    let givens = Givens::try_new(4, 2, 2)?;
    match StopPlan::try_new(rt.alloc(), givens, &[5, 9]) {
        Ok(plan) => {
            assert!(rt; plan.givens() == givens);
            Ok(())
        }
        Err(fault) => {
            assert!(rt; fault == StopFault::NoMemory);
            Ok(())
        }
    }
}

#[test]
fn refused_outlets(rt: HostRuntime) -> Result<(), Fail> {
    let givens = Givens::try_new(4, 2, 2)?;
    if let Ok((queue, mut inlet, ends)) = outlets::<u32>(rt.alloc(), givens) {
        assert!(rt; ends.len() == 2 && inlet.room() == 4);
        assert!(rt; !inlet.take(&rt, &queue));
    }
    Ok(())
}

/// Checks what a run left that wanted memory at its settling. If no thread was started, it has no
/// output and no job in hand.
fn expect_unsettled(rt: &impl Abort, rest: &Unsettled<u32, u32>) {
    assert_eq!(rt; rest.ends().len(), 2);
    if rest.ends().iter().all(|end| *end == End::NotStarted) {
        assert!(rt; rest.outputs().is_empty() && rest.in_hand().is_empty());
    }
}

/// Returns true if a request for memory is granted. If one was refused and this one isn't, the call
/// that was refused has to succeed now.
fn has_memory(alloc: Global) -> bool {
    Vec::<u32>::with_capacity(alloc, 1).is_ok()
}

/// Settles what a run of four jobs left: not while there is no memory, and then it is as it was.
/// If no thread was started, a hire was refused and then the settling too. So there is no memory
/// now.
fn settle_again(rt: &impl Abort, alloc: Global, rest: Unsettled<u32, u32>) {
    expect_unsettled(rt, &rest);
    let has_memory = has_memory(alloc);
    let has_started = rest.ends().iter().any(|end| *end != End::NotStarted);
    assert!(rt;
        has_started || !has_memory,
        "there was memory for the payloads"
    );
    match rest.settle(alloc) {
        Ok(outcome) => expect_each_once(rt, &outcome, 4),
        Err(rest) => {
            assert!(rt; !has_memory, "there was memory to settle");
            expect_unsettled(rt, &rest);
        }
    }
}

#[test]
fn refused_run(rt: HostRuntime) -> Result<(), Fail> {
    let givens = Givens::try_new(4, 2, 2)?;
    let Ok(payloads) = payloads_for(rt.alloc(), 4) else {
        return Ok(());
    };
    let Ok(plan) = StopPlan::try_new(rt.alloc(), givens, &[10_000, 10_000]) else {
        return Ok(());
    };
    match execute(&rt, rt.alloc(), givens, payloads, &Echo, &plan) {
        Ok(outcome) => expect_each_once(&rt, &outcome, 4),
        Err(ExecFault::NoMemory(back)) => {
            assert!(rt; back.as_slice() == [10_001, 10_002, 10_003, 10_004].as_slice());
        }
        Err(ExecFault::ThreadRefused(outcome)) => {
            assert!(rt; outcome.ends.iter().any(|end| *end == End::NotStarted));
            expect_each_once(&rt, &outcome, 4);
        }
        Err(ExecFault::Unsettled(rest)) => settle_again(&rt, rt.alloc(), rest),
        Err(ExecFault::WrongCount(_)) => panic!(rt; "there are four payloads"),
    }
    Ok(())
}

/// The payloads of so many jobs came back, in their order.
fn expect_payloads(rt: &impl Abort, back: &[u32], jobs: usize) {
    assert_eq!(rt; back.len(), jobs);
    for (before, payload) in back.iter().enumerate() {
        assert_eq!(rt; *payload as usize, before.wrapping_add(10_001));
    }
}

/// Settles what a run of 20 jobs left. If there is memory now, nothing is lacking, whatever was
/// refused before.
fn settle_once_there_is_memory(rt: &impl Abort, alloc: Global, rest: Unsettled<u32, u32>) {
    let hands = rest.in_hand().len();
    let has_memory = has_memory(alloc);
    match rest.settle(alloc) {
        Ok(outcome) => {
            assert_eq!(rt; outcome.in_hand.len(), hands);
            expect_each_once(rt, &outcome, 20);
        }
        Err(_) => assert!(rt; !has_memory, "there was memory to settle"),
    }
}

#[test]
fn refused_twice_in_a_run(rt: HostRuntime) -> Result<(), Fail> {
    // each of the five workers stops with its first job in hand
    let givens = Givens::try_new(20, 5, 5)?;
    let Ok(payloads) = payloads_for(rt.alloc(), 20) else {
        return Ok(());
    };
    let Ok(plan) = StopPlan::try_new(rt.alloc(), givens, &[10; 5]) else {
        return Ok(());
    };
    match execute(&rt, rt.alloc(), givens, payloads, &Echo, &plan) {
        Ok(outcome) => {
            assert_eq!(rt; outcome.in_hand.len(), 5);
            expect_each_once(&rt, &outcome, 20);
        }
        Err(ExecFault::NoMemory(back)) => expect_payloads(&rt, &back, 20),
        Err(ExecFault::ThreadRefused(outcome)) => expect_each_once(&rt, &outcome, 20),
        Err(ExecFault::Unsettled(rest)) => settle_once_there_is_memory(&rt, rt.alloc(), rest),
        Err(ExecFault::WrongCount(_)) => panic!(rt; "there are twenty payloads"),
    }
    Ok(())
}

/// Makes a queue. If it is used, more is put than goes into it, one output goes through it, and the
/// others are left to be gathered.
fn use_queue<R: Abort + Wait>(rt: &R, alloc: Global, used: bool) -> Result<(), Fail> {
    let (queue, mut inlet, mut ends) = outlets::<u32>(alloc, Givens::try_new(71, 1, 1)?)?;
    if used {
        put_jobs(rt, &queue, &mut ends[0], 1, 71);
        assert!(rt; ends[0].kept().len() == 6 && ends[0].has_room());
        assert_eq!(rt; take_jobs(rt, &queue, &mut inlet, 1), 1);
        assert!(rt; inlet.taken().len() == 1 && ends[0].put_count() <= inlet.room());
        assert_eq!(rt; inlet.gather(rt, queue, ends).len(), 70);
    }
    Ok(())
}

/// Makes 100 queues, of which so many are used.
fn use_queues<R: Abort + Wait>(rt: &R, alloc: Global, count: u32) -> Result<(), Fail> {
    for i in 0..100 {
        use_queue(rt, alloc, i < count)?;
    }
    Ok(())
}

#[test]
fn a_queue_takes_no_memory_once(rt: HostRuntime) -> Result<(), Fail> {
    use_queues(&rt, rt.alloc(), 1)
}

#[test]
fn a_queue_takes_no_memory_often(rt: HostRuntime) -> Result<(), Fail> {
    use_queues(&rt, rt.alloc(), 100)
}
