//! The trace of a plan, as a text.
ghost use Rattle.std.specs.Prelude.{◌≡◌, IfOk, string_bytes};
ghost use Rattle.amo_plan.specs.PlanSeen.{plan_seen};
ghost use Rattle.amo_trace.specs.Trace.{trace_of};

use crate::lines::{push_openings, push_transitions};
use crate::transitions::transitions_of;
use amo_plan::Plan;
use amo_render::push_first_line;
use amo_world::World;
use std::alloc::{AllocError, Global};

/// Returns the trace of a plan: its numbers, the opening state of each worker, and a line for each
/// move. The moves are those of its schedule and its rounds, until all workers are gone.
///
/// # Errors
///
/// `AllocError` if there was no memory.
#[tactic(auto, unfolding(crate::specs::Trace::trace_of))]
pub fn trace_text(alloc: Global, plan: &Plan) -> Result<String, AllocError>
    ensures { IfOk result (λ s. string_bytes s ≡ trace_of (plan_seen plan.now)) }
{
    let transitions = transitions_of(alloc, plan)?;
    let opening = World::new(alloc, plan.heads.givens)?;
    let mut out = String::new(alloc);
    push_first_line(&mut out, &plan.heads)?;
    push_openings(&mut out, &opening)?;
    push_transitions(&mut out, &transitions)?;
    Ok(out)
}
