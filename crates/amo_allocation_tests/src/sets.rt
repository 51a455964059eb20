//! Sets and lists, out of memory, and the calls that take none.
use amo_sets::{JobSet, filled};
use std::alloc::{AllocError, Global};
use std::process::Abort;
use std::test::*;

/// Makes two sets, and then so many times each call that takes no memory.
fn use_sets(rt: &impl Abort, alloc: Global, times: u32) -> Result<(), AllocError> {
    let mut set = JobSet::empty(alloc, 130)?;
    let mut other = JobSet::empty(alloc, 130)?;
    other.add(2);
    for round in 0..times {
        set.add(130);
        set.add(3);
        set.add(2);
        set.add(2);
        set.take_out(130);
        let has = set.covers(130) && set.has(3) && !set.is_empty() && set.range() == 130;
        let counts = set.len() == 2 && set.count_without(&other) == 1 && set.words().len() == 3;
        let ranks = set.rank_without(&other, 1) == Some(3);
        assert!(rt; has && counts && ranks, "round {round}");
        set.clear();
        set.take_out(3);
        let lacks = !set.has(3) && set.is_empty() && set.len() == 0;
        assert!(rt;
            lacks && set.rank_without(&other, 1) == None,
            "round {round}"
        );
    }
    Ok(())
}

#[test]
fn takes_no_memory_once(rt: HostRuntime) -> Result<(), Fail> {
    Ok(use_sets(&rt, rt.alloc(), 1)?)
}

#[test]
fn takes_no_memory_often(rt: HostRuntime) -> Result<(), Fail> {
    Ok(use_sets(&rt, rt.alloc(), 100)?)
}

#[test]
fn refused_filled(rt: HostRuntime) {
    match filled(rt.alloc(), 3, 7u32) {
        Ok(list) => assert_eq!(rt; list.as_slice(), [7, 7, 7].as_slice()),
        Err(AllocError) => {}
    }
}

#[test]
fn refused_full(rt: HostRuntime) {
    match JobSet::full(rt.alloc(), 65) {
        Ok(set) => assert_eq!(rt; set.words(), [18446744073709551615, 1].as_slice()),
        Err(AllocError) => {}
    }
}

#[test]
fn refused_empty(rt: HostRuntime) {
    match JobSet::empty(rt.alloc(), 65) {
        Ok(set) => assert_eq!(rt; set.words(), [0, 0].as_slice()),
        Err(AllocError) => {}
    }
}

#[test]
fn refused_copy(rt: HostRuntime) {
    let Ok(set) = JobSet::full(rt.alloc(), 65) else {
        return;
    };
    match set.copy(rt.alloc()) {
        Ok(copy) => assert_eq!(rt; copy.words(), [18446744073709551615, 1].as_slice()),
        Err(AllocError) => assert_eq!(rt; set.words(), [18446744073709551615, 1].as_slice()),
    }
}
