//! Writes the schedule.
ghost use Rattle.std.specs.Prelude.{◌≡◌, ◌++◌, ◌≤◌, OnOk, IfOk, string_bytes};
ghost use Rattle.amo_worst_case.specs.Schedule.{stuck_words, worst_schedule};

use crate::counts::lone_turns;
use amo_params::Givens;
use std::alloc::{AllocError, Global};

/// Appends, for each of the first so many others of worker 1, a turn and a stop.
fn push_stuck(out: &mut String, others: u32) -> Result<(), AllocError>
    requires { others ≤ 15 }
    ensures { OnOk result (string_bytes out.new ≡ string_bytes out.old ++ stuck_words others) }
{
    for before in 0..others {
        let worker = before + 2;
        write!(out, "{worker} x{worker} ")?;
    }
    Ok(())
}

/// Returns a schedule of these givens, in the words of a plan, after which all workers are gone and
/// just the fewest jobs are performed.
///
/// # Errors
///
/// `AllocError` if there was no memory.
#[tactic(auto, unfolding(crate::specs::Schedule::worst_schedule))]
pub fn worst_schedule(alloc: Global, givens: Givens) -> Result<String, AllocError>
    ensures { IfOk result (λ s. string_bytes s ≡ worst_schedule givens) }
{
    let mut out = String::new(alloc);
    if givens.jobs < givens.beta {
        return Ok(out);
    }
    let turns = lone_turns(givens);
    push_stuck(&mut out, givens.workers - 1)?;
    write!(out, "1*{turns}")?;
    Ok(out)
}
