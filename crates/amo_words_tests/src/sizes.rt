//! Floors of all sizes: each is opened, hires its workers and is settled.
ghost use Rattle.std.specs.Prelude.{◌≡◌};

use super::floors::{hire, numbers, open, run, settle};
use amo_params::Givens;
use amo_words::{Book, Floor, Settlement, WorkerEnd};
use std::alloc::Global;
use std::process::Abort;
use std::test::Fail;

/// Numbers of jobs that are tried with each number of workers, as all up to 70 are.
const JOBS: [u32; 4] = [1000, 1001, 4095, 4096];

/// The free jobs rise, each comes with its own payload, and with those that were claimed they are
/// all jobs.
fn expect_all_told(rt: &impl Abort, end: &Settlement<u32>, givens: Givens) {
    let mut told = end.free.len();
    for list in &end.claims {
        told = told.saturating_add(list.len());
    }
    assert_eq!(rt; told, givens.jobs() as usize);
    let mut last = 0;
    for (job, payload) in &end.free {
        assert!(rt; last < *job && job == payload);
        last = *job;
    }
    assert_eq!(rt; end.ends.len(), givens.workers() as usize);
}

/// Nobody was hired, and all jobs are free.
fn expect_untouched(rt: &impl Abort, end: &Settlement<u32>, givens: Givens) {
    expect_all_told(rt, end, givens);
    assert_eq!(rt; end.free.len(), givens.jobs() as usize);
    for one in &end.ends {
        assert!(rt; *one == WorkerEnd::NeverHired);
    }
}

/// A floor is settled after nobody was hired, and so is one that was closed.
fn settle_at_once(rt: &impl Abort, alloc: Global, givens: Givens) -> Result<(), Fail> {
    let (floor, book) = open(rt, alloc, givens, numbers(alloc, givens.jobs())?);
    expect_untouched(rt, &settle(rt, alloc, floor, book), givens);
    let (floor, book) = open(rt, alloc, givens, numbers(alloc, givens.jobs())?);
    let Ok(end) = floor.close(book).settle(alloc) else {
        panic!(rt; "the closed floor was not settled")
    };
    expect_untouched(rt, &end, givens);
    Ok(())
}

/// Hires worker p and lets it take 40 accesses. Each second one is collected, the others are
/// dropped.
fn employ(rt: &impl Abort, alloc: Global, floor: &Floor<u32>, book: &mut Book<u32>, p: u32)
    requires { book.old.table_id ≡ floor.now.table_id }
    ensures { book.new.table_id ≡ book.old.table_id }
{
    let mut worker = hire(rt, alloc, floor, book, p);
    run(floor, &mut worker, 40);
    if p % 2 == 1 {
        book.collect(floor, worker);
    }
}

/// The floor hires one worker after the other, also after one is back, and is settled.
fn settle_after_work(rt: &impl Abort, alloc: Global, givens: Givens) -> Result<(), Fail> {
    let (floor, mut book) = open(rt, alloc, givens, numbers(alloc, givens.jobs())?);
    for before in 0..givens.workers() {
        employ(rt, alloc, &floor, &mut book, before + 1);
    }
    let end = settle(rt, alloc, floor, book);
    expect_all_told(rt, &end, givens);
    for (k, one) in end.ends.iter().enumerate() {
        assert_eq!(rt; *one == WorkerEnd::Lost, k % 2 == 1);
    }
    Ok(())
}

/// Floors with so many jobs and workers, and thresholds at both limits and between.
fn settle_each_threshold(
    rt: &impl Abort,
    alloc: Global,
    jobs: u32,
    workers: u32,
) -> Result<(), Fail> {
    for beta in [workers as u64, workers as u64 + jobs as u64 / 2, 65535] {
        let givens = Givens::try_new(jobs as u64, workers as u64, beta)?;
        settle_at_once(rt, alloc, givens)?;
        settle_after_work(rt, alloc, givens)?;
    }
    Ok(())
}

/// Floors with so many jobs, and each number of workers.
fn settle_each_crew(rt: &impl Abort, alloc: Global, jobs: u32) -> Result<(), Fail> {
    for workers in 1..17 {
        settle_each_threshold(rt, alloc, jobs, workers)?;
    }
    Ok(())
}

#[test]
fn a_floor_of_each_size_is_settled(rt: HostRuntime) -> Result<(), Fail> {
    for jobs in 0..71 {
        settle_each_crew(&rt, rt.alloc(), jobs)?;
    }
    for jobs in JOBS {
        settle_each_crew(&rt, rt.alloc(), jobs)?;
    }
    Ok(())
}

#[test]
fn a_floor_of_each_number_of_jobs_is_settled(rt: HostRuntime) -> Result<(), Fail> {
    for jobs in 0..4097u64 {
        let workers = jobs % 16 + 1;
        let givens = Givens::try_new(jobs, workers, workers)?;
        settle_at_once(&rt, rt.alloc(), givens)?;
        settle_after_work(&rt, rt.alloc(), givens)?;
    }
    Ok(())
}
