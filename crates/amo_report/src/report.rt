//! The report of a plan.
ghost use Rattle.std.specs.Prelude.{◌≡◌, ◌++◌, ◌<◌, ◌^◌, OnOk, IfOk, string_bytes, length};
ghost use Rattle.amo_plan.specs.PlanSeen.{plan_seen};
ghost use Rattle.amo_report.specs.Report.{happened_lines, closing_lines, report_lines};
ghost use Rattle.amo_report.specs.Texts.{report_in};

use crate::running::all_turns;
use amo_kk::Event;
use amo_kk::laws::runs_are_short;
use amo_plan::Plan;
use amo_render::{
    push_events, push_first_line, push_performed, push_results, push_unclaimed, push_workers,
};
use amo_world::World;
use std::alloc::{AllocError, Global};

/// Appends what happened.
#[tactic(auto, unfolding(crate::specs::Report::happened_lines))]
fn push_happened(out: &mut String, history: &[Event], turns: &[u64]) -> Result<(), AllocError>
    ensures { OnOk result (string_bytes out.new ≡ string_bytes out.old ++ happened_lines history.now turns.now) }
{
    push_events(out, history)?;
    push_workers(out, history, turns)
}

/// Appends the lines that close a report: the results.
#[tactic(auto, unfolding(crate::specs::Report::closing_lines))]
fn push_closing(
    alloc: Global,
    out: &mut String,
    plan: &Plan,
    history: &[Event],
) -> Result<(), AllocError>
    requires { length history.now < 2 ^ 32 }
    ensures { OnOk result (string_bytes out.new ≡ string_bytes out.old ++ closing_lines (plan_seen plan.now) history.now) }
{
    let heads = &plan.heads;
    let names = heads.names.as_slice();
    push_results(
        alloc,
        out,
        heads.block,
        names,
        plan.tasks.as_slice(),
        history,
    )?;
    push_performed(out, heads, history)?;
    push_unclaimed(alloc, out, heads.givens.jobs, history)
}

/// Returns the report of a plan with this history and these numbers of turns. Fails if there was no
/// memory.
#[tactic(auto, unfolding(crate::specs::Report::report_lines))]
fn history_report(
    alloc: Global,
    plan: &Plan,
    history: &[Event],
    turns: &[u64],
) -> Result<String, AllocError>
    requires { length history.now < 2 ^ 32 }
    ensures { IfOk result (λ s. string_bytes s ≡ report_lines (plan_seen plan.now) history.now turns.now) }
{
    let mut out = String::new(alloc);
    push_first_line(&mut out, &plan.heads)?;
    push_happened(&mut out, history, turns)?;
    push_closing(alloc, &mut out, plan, history)?;
    Ok(out)
}

/// Returns the report of a plan in a world of the plan's givens. It has the plan's numbers, the
/// history, the end of each worker, the results of done jobs, and the jobs that nobody has claimed.
///
/// # Errors
///
/// `AllocError` if memory is refused.
///
/// # Examples
///
/// ```
/// use amo_plan::read_plan;
/// use amo_report::{all_turns, report_text};
/// use amo_world::World;
///
/// let text = "version = 1
/// workers = 1
/// beta = 1
/// job = [{name = \"a\", say = \"hi\"}]
/// ";
/// let plan = read_plan(rt.alloc(), text.as_bytes())?;
/// let mut world = World::new(rt.alloc(), plan.heads.givens)?;
/// world.run_alone(1);
/// assert_eq!(rt; all_turns(rt.alloc(), &world)?.as_slice(), [2].as_slice());
/// let report = report_text(rt.alloc(), &plan, &world)?;
/// assert!(rt; report.as_str().starts_with("jobs 1 workers 1 beta 1 bound 1\n1 claimed 1 1\n"));
/// ```
pub fn report_text(alloc: Global, plan: &Plan, world: &World) -> Result<String, AllocError>
    requires { world.now.givens ≡ plan.now.heads.givens }
    ensures { IfOk result (λ s. string_bytes s ≡ report_in (plan_seen plan.now) world.now.world) }
{
    runs_are_short();
    let turns = all_turns(alloc, world)?;
    history_report(alloc, plan, world.history(), &turns)
}
