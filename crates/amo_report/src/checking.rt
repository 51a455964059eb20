//! The text of a check.
ghost use Rattle.std.specs.Prelude.{◌≡◌, ◌++◌, OnOk, IfOk, string_bytes, length};
ghost use Rattle.amo_plan.specs.PlanSeen.{plan_seen};
ghost use Rattle.amo_report.specs.Check.{check_line, check_of};

use amo_plan::Plan;
use amo_render::push_numbers;
use std::alloc::{AllocError, Global};

/// Appends how many moves and rounds there are, and ends the line.
#[tactic(auto, unfolding(crate::specs::Check::check_line))]
fn push_check(out: &mut String, plan: &Plan) -> Result<(), AllocError>
    ensures { OnOk result (string_bytes out.new ≡ string_bytes out.old ++ check_of (plan_seen plan.now)) }
{
    let heads = &plan.heads;
    let moves = heads.moves.as_slice().len();
    let rounds = heads.rounds;
    out.push_str("ok ")?;
    push_numbers(out, heads)?;
    writeln!(out, " moves {moves} rounds {rounds}")
}

/// Returns the line of a check, with the plan's numbers: `ok jobs N workers M beta B moves K rounds
/// R`. From version 2 on it also has the numbers of blocks.
///
/// # Errors
///
/// `AllocError` if memory is refused.
///
/// # Examples
///
/// ```
/// use amo_plan::read_plan;
/// use amo_report::{check_text, explore, stops_text};
///
/// let text = "version = 1
/// workers = 2
/// beta = 2
/// rounds = 5
/// schedule = \"1*4\"
/// job = [{name = \"a\", say = \"x\"}, {name = \"b\", say = \"y\"}]
/// ";
/// let plan = read_plan(rt.alloc(), text.as_bytes())?;
/// let checked = check_text(rt.alloc(), &plan)?;
/// assert_eq!(rt; checked.as_str(), "ok jobs 2 workers 2 beta 2 moves 4 rounds 5\n");
/// let explored = explore(rt.alloc(), &plan, 0, 2, 5)?;
/// let lines = "schedule 0 claimed 2 done 1 ended 1 lawful
/// schedule 1 claimed 2 done 2 ended 2 lawful
/// least 1
/// ";
/// assert_eq!(rt; explored.as_str(), lines);
/// let stops = stops_text(rt.alloc(), &plan, 1)?;
/// assert!(rt; stops.as_str().ends_with("stop 4 claimed 2 done 1 most 4 lawful\nleast 1\n"));
/// ```
pub fn check_text(alloc: Global, plan: &Plan) -> Result<String, AllocError>
    ensures { IfOk result (λ s. string_bytes s ≡ check_of (plan_seen plan.now)) }
{
    let mut out = String::new(alloc);
    push_check(&mut out, plan)?;
    Ok(out)
}
