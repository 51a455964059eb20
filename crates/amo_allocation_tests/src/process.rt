//! Processes, out of memory, and the calls that take none.
use amo_kk::Local;
use amo_params::Givens;
use amo_process::{Access, Process, items_of, standing_of};
use std::alloc::{AllocError, Global};
use std::process::Abort;
use std::test::Fail;

/// Returns a process of worker p of these givens. The test fails if they have fewer workers.
fn process(
    alloc: Global,
    rt: &impl Abort,
    numbers: (u64, u64, u64),
    p: u32,
) -> Result<Process, Fail> {
    let givens = Givens::try_new(numbers.0, numbers.1, numbers.2)?;
    assert!(rt; 1 <= p && p <= givens.workers());
    Ok(Process::new(alloc, givens, p)?)
}

#[test]
fn refused_batch(rt: HostRuntime) {
    if let Ok(givens) = Givens::try_new(3, 2, 2) {
        assert_eq!(rt; givens.workers(), 2);
        if let Ok(local) = Local::new(rt.alloc(), givens, 1) {
            if let Ok(standing) = standing_of(local, &[]) {
                match items_of(rt.alloc(), givens, 1, standing) {
                    Ok(items) => assert_eq!(rt; items.len(), 3),
                    Err(AllocError) => {}
                }
            }
        }
    }
}

#[test]
fn refused_process(rt: HostRuntime) {
    if let Ok(givens) = Givens::try_new(3, 1, 1) {
        assert_eq!(rt; givens.workers(), 1);
        match Process::new(rt.alloc(), givens, 1) {
            Ok(process) => {
                assert!(rt; process.want() == Access::Load(1));
                match process.batch(rt.alloc()) {
                    Ok(items) => assert_eq!(rt; items.len(), 3),
                    Err(AllocError) => {}
                }
            }
            Err(AllocError) => {}
        }
    }
}

/// Makes 100 processes, and takes so many of them through calls that take no memory.
fn use_processes(rt: &impl Abort, alloc: Global, times: usize) -> Result<(), Fail> {
    let mut processes = Vec::new(alloc);
    for _ in 0..100 {
        processes.push(process(alloc, rt, (4, 2, 2), 1)?)?;
    }
    for process in processes.iter_mut().take(times) {
        for heard in [1, 1, 0, 0] {
            assert!(rt; process.told(heard).is_ok());
        }
        assert!(rt; process.want() == Access::Store(1, 2));
    }
    Ok(())
}

#[test]
fn takes_no_memory_once(rt: HostRuntime) -> Result<(), Fail> {
    use_processes(&rt, rt.alloc(), 1)
}

#[test]
fn takes_no_memory_often(rt: HostRuntime) -> Result<(), Fail> {
    use_processes(&rt, rt.alloc(), 100)
}
