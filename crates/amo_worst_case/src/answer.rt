//! The text for a plan.
ghost use Rattle.std.specs.Prelude.{◌≡◌, ◌++◌, Ok, OnOk, IfOk, string_bytes};
ghost use Rattle.amo_plan.specs.PlanSeen.{plan_seen};
ghost use Rattle.amo_worst_case.specs.Answer.{too_many_bytes, too_many_moves, worst_of};

use crate::counts::count_moves;
use crate::texts::plan_text;
use amo_plan::{MOST_BYTES, MOST_MOVES, Plan};
use amo_render::{PlanText, ReplayFault};
use std::alloc::{AllocError, Global};

/// Appends what stands in the place of a plan whose schedule would have too many moves.
#[tactic(auto, unfolding(crate::specs::Answer::too_many_moves))]
fn push_too_many_moves(out: &mut String, moves: u32) -> Result<(), AllocError>
    ensures { OnOk result (string_bytes out.new ≡ string_bytes out.old ++ too_many_moves moves) }
{
    let most = MOST_MOVES;
    writeln!(
        out,
        "refused\nthe schedule would have {moves} moves, and a plan has at most {most}"
    )
}

/// Appends what stands in the place of a plan whose text would be too long.
#[tactic(auto, unfolding(crate::specs::Answer::too_many_bytes))]
fn push_too_many_bytes(out: &mut String, moves: u32, bytes: usize) -> Result<(), AllocError>
    ensures { OnOk result (string_bytes out.new ≡ string_bytes out.old ++ too_many_bytes moves bytes) }
{
    let most = MOST_BYTES;
    writeln!(
        out,
        "refused\nthe text would have {bytes} bytes, with {moves} moves, and a plan has at most {most}"
    )
}

/// Returns the text of the plan that has the jobs, workers and threshold of this one and a schedule
/// after which just the fewest jobs are performed. If that would be larger than a plan may be, it
/// returns a line that says `refused`, and one with the reason. Otherwise the text is read as that
/// plan.
///
/// # Errors
///
/// `AllocError` if there was no memory.
pub fn worst_text(alloc: Global, plan: &Plan) -> Result<String, AllocError>
    ensures { IfOk result (λ s. string_bytes s ≡ worst_of (plan_seen plan.now)) }
{
    let moves = count_moves(plan.heads.givens);
    let mut out = String::new(alloc);
    if moves as u64 > MOST_MOVES {
        push_too_many_moves(&mut out, moves)?;
        return Ok(out);
    }
    let text = plan_text(alloc, plan)?;
    if text.len() > MOST_BYTES {
        push_too_many_bytes(&mut out, moves, text.len())?;
        return Ok(out);
    }
    Ok(text)
}

/// The text that has the jobs of a plan and a schedule after which just the fewest of them are
/// performed.
#[derive(Clone, Copy, Debug, PartialEq, Eq)]
pub struct Worst;

impl PlanText for Worst {
    ghost use Rattle.std.specs.Prelude.{Ok};
    ghost use Rattle.amo_worst_case.specs.Answer.{worst_of};

    ghost fits = { λ _. Unit {0} };

    ghost made = { λ _ plan. Ok (worst_of plan) };

    /// Returns the text. Fails if there was no memory.
    fn make(&self, alloc: Global, plan: &Plan) -> Result<String, ReplayFault> {
        Ok(worst_text(alloc, plan)?)
    }
}
