//! A work, its payloads, and how an outcome accounts for each job.
//!
//! `tests/amo_algorithm_tests` has a link to this file, so that both crates use it.
ghost use Rattle.std.specs.Prelude.{◌≡◌};

use amo_crew::{Outcome, Work};
use std::alloc::{AllocError, Global};
use std::process::Abort;

/// Gives the payload back.
pub(super) struct Echo;

impl Work<u32> for Echo {
    type Out = u32;

    ghost related = { λ w p j x o. o ≡ x };

    fn perform(&self, _worker: u32, _job: u32, payload: u32) -> u32 {
        payload
    }
}

/// A payload for each of so many jobs, and for job j it is 10,000 + j.
pub(super) fn payloads_for(alloc: Global, jobs: u32) -> Result<Vec<u32>, AllocError> {
    let mut payloads = Vec::new(alloc);
    for before in 0..jobs {
        payloads.push(before.wrapping_add(10_001))?;
    }
    Ok(payloads)
}

/// Returns in how many ways the outcome accounts for a job: it was done, or is in hand, or is free,
/// each with its own payload.
fn ways_of(outcome: &Outcome<u32, u32>, job: u32) -> usize {
    let payload = job.wrapping_add(10_000);
    let done = outcome
        .outputs
        .iter()
        .filter(|x| x.job == job && x.out == payload)
        .count();
    let held = outcome
        .in_hand
        .iter()
        .filter(|h| h.1 == job && h.2 == payload)
        .count();
    let free = outcome
        .settlement
        .free
        .iter()
        .filter(|f| f.0 == job && f.1 == payload)
        .count();
    done.wrapping_add(held).wrapping_add(free)
}

/// Each job is done, in hand or free, and just one of these.
pub(super) fn expect_each_once(rt: &impl Abort, outcome: &Outcome<u32, u32>, jobs: u32) {
    for before in 0..jobs {
        let job = before.wrapping_add(1);
        assert_eq!(rt; ways_of(outcome, job), 1, "job {job}");
    }
    let told = outcome
        .outputs
        .len()
        .wrapping_add(outcome.in_hand.len())
        .wrapping_add(outcome.settlement.free.len());
    assert_eq!(rt; told, jobs as usize);
}
