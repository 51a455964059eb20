//! The worker that has claimed a block.
ghost use Rattle.std.specs.Prelude.{◌≡◌, ◌≤◌, ◌<◌, ◌^◌, ℕ, None, Some, IfOk, length};
ghost use Rattle.std.specs.Option.{option_or};
ghost use Rattle.amo_sets.specs.Lists.{numbered, put};
ghost use Rattle.amo_run_plan.specs.Became.{listed, claimer_of};
ghost use Rattle.amo_run_plan.specs.Noted.{claimed_by};

use std::alloc::{AllocError, Global};

/// Notes the worker as the claimer of a job, unless there is no such job, or it has a claimer.
fn note_claim(claimers: &mut [Option<u32>], worker: u32, job: u32)
    ensures { claimers.new ≡ put claimers.old job (option_or (numbered None claimers.old job) (Some worker)) }
{
    if 1 <= job && job as usize <= claimers.len() {
        let place = job as usize - 1;
        claimers[place] = claimers[place].or(Some(worker));
    }
}

/// Notes the worker as the claimer of each job of its list that has none yet.
#[tactic(auto, using(crate::proofs::Claims::claim_noted))]
fn note_claims(claimers: &mut [Option<u32>], worker: u32, claims: &[u32])
    ensures len { length claimers.new ≡ length claimers.old }
    ensures noted { (k : ℕ) → 1 ≤ k → k ≤ length claimers.old
        → numbered None claimers.new k ≡ option_or (numbered None claimers.old k) (claimed_by worker claims.now k) }
{
    for job in claims {
        note_claim(claimers, worker, *job);
    }
}

/// Returns the least worker that has each of so many jobs in its list.
#[tactic(auto, using(crate::proofs::Claims::claims_noted))]
pub(crate) fn claimers_of(
    alloc: Global,
    jobs: u32,
    claims: &[Vec<u32>],
) -> Result<Vec<Option<u32>>, AllocError>
    requires { length claims.now < 2 ^ 32 }
    ensures len { IfOk result (λ v. length v.items ≡ jobs) }
    ensures noted { IfOk result (λ v. (k : ℕ) → 1 ≤ k → k ≤ jobs → numbered None v.items k ≡ claimer_of (listed claims.now) k) }
{
    let mut claimers = vec![in alloc; None; jobs as usize]?;
    for (i, list) in claims.iter().enumerate() {
        note_claims(&mut claimers, i as u32 + 1, list);
    }
    Ok(claimers)
}
