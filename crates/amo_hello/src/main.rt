//! Sends ten letters by three workers, each at most once, and prints a line for each that was sent.
#![tactic(auto)]

ghost use Rattle.std.specs.Prelude.{◌≡◌, IfSome, map};
ghost use Rattle.amo_sets.specs.Sets.{AreDistinct};

use amo_crew::{ExecFault, StopPlan, Work, execute, laws};
use amo_params::{Givens, MAX_STEPS};
use std::sync::Wait;
use std::thread::Threads;

#[derive(Drop)]
struct Letter(u32); // to a house; it has no Clone, so only who holds it can send it

struct Post;

impl Work<Letter> for Post {
    type Out = u32;

    ghost related = { λ _ _ _ letter house. house ≡ letter.0 };

    fn perform(&self, _worker: u32, _job: u32, letter: Letter) -> u32 {
        letter.0
    }
}

/// Job and house of each letter that was sent, by a worker or at last here. None where memory is
/// refused.
fn send<R: Threads + Wait + Sync + AllocGlobal>(rt: &R, all: Vec<Letter>) -> Option<Vec<(u32, u32)>>
    ensures once { IfSome result (λ sent. AreDistinct (map (λ t. t.0) sent.items)) }
{
    let givens = Givens::try_new(all.len() as u64, 3, 3).ok()?;
    let plan = StopPlan::try_new(rt.alloc(), givens, &[MAX_STEPS; 3]).ok()?;
    laws::settled_later(&Post);
    laws::each_job_is_answered_once(&Post);
    laws::each_job_has_a_place(&Post);
    let outcome = match execute(rt, rt.alloc(), givens, all, &Post, &plan) {
        Ok(outcome) => outcome,
        Err(ExecFault::ThreadRefused(outcome)) => outcome,
        Err(ExecFault::Unsettled(rest)) => rest.settle(rt.alloc()).ok()?,
        Err(_) => return None,
    };
    let settlement = outcome.settlement;
    let mut sent = Vec::new(rt.alloc());
    for output in outcome.outputs {
        sent.push((output.job, output.out)).ok()?;
    }
    for (job, letter) in settlement.free {
        sent.push((job, Post.perform(0, job, letter))).ok()?;
    }
    sent.sort_unstable();
    Some(sent)
}

fn main(rt: HostRuntime) -> std::io::Result<()> {
    let letters = (1..=10).map(|house| Letter(house)).collect(rt.alloc())?;
    for (job, house) in send(&rt, letters).ok_or(std::alloc::AllocError)? {
        println!(rt; "job {job}: a letter to house {house}")?;
    }
    Ok(())
}
