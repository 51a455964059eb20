//! Worlds of all sizes, and the judge on runs of all lengths.
use super::worlds::{longest_run, opening};
use amo_params::Givens;
use amo_world::{Verdict, judge};
use std::test::Fail;

#[test]
fn a_world_of_each_size_opens(rt: HostRuntime) -> Result<(), Fail> {
    for jobs in 0..4097 {
        let workers = jobs % 16 + 1;
        let world = opening(rt.alloc(), (jobs, workers, workers + jobs % 100))?;
        assert_eq!(rt; world.unclaimed_len() as u64, jobs);
    }
    for jobs in 0..71 {
        for workers in 1..17 {
            let world = opening(rt.alloc(), (jobs, workers, 100))?;
            assert_eq!(rt; world.unclaimed_len() as u64, jobs);
        }
    }
    Ok(())
}

#[test]
fn a_run_of_each_length_is_lawful(rt: HostRuntime) -> Result<(), Fail> {
    for jobs in 0..4097 {
        let workers = jobs % 16 + 1;
        let givens = Givens::try_new(jobs, workers, workers)?;
        let events = longest_run(rt.alloc(), givens)?;
        assert!(rt;
            judge(rt.alloc(), givens, &events)? == Verdict::Lawful,
            "{jobs} jobs"
        );
    }
    Ok(())
}
