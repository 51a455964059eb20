//! The explanation of a text: its first line, and sentences below it.
ghost use Rattle.std.specs.Prelude.{IfOk, codes, string_bytes};
ghost use Rattle.amo_plan.specs.Plan.{plan_of};
ghost use Rattle.amo_render.specs.FaultTexts.{fault_line};
ghost use Rattle.amo_explain_faults.specs.Heading.{BeginsWith, explanation_head};

use crate::asked::asked_of;
use crate::reasons::reason_of;
use amo_plan::{Plan, PlanFault, read_plan};
use amo_render::fault_text;
use std::alloc::{AllocError, Global};

/// Returns the line `taken`, and the request of the plan.
fn taken(alloc: Global, plan: &Plan) -> Result<String, AllocError>
    ensures { IfOk result (λ s. BeginsWith (codes "taken\n") (string_bytes s)) }
{
    let asked = asked_of(alloc, &plan.heads)?;
    let mut text = String::from_str(alloc, "taken\n")?;
    text.push_str(asked.as_str())?;
    Ok(text)
}

/// Returns the line of a fault of these bytes, and its explanation.
fn refused(alloc: Global, bytes: &[u8], fault: &PlanFault) -> Result<String, AllocError>
    ensures { IfOk result (λ s. BeginsWith (fault_line fault.now) (string_bytes s)) }
{
    let reason = reason_of(alloc, bytes, fault)?;
    let mut text = fault_text(alloc, fault)?;
    text.push_str(reason.as_str())?;
    Ok(text)
}

/// Returns the request of a plan in plain words, or the reason why the bytes are not a plan.
///
/// # Errors
///
/// `AllocError` if there was no memory.
pub fn explanation(alloc: Global, bytes: &[u8]) -> Result<String, AllocError>
    ensures head { IfOk result (λ s. BeginsWith (explanation_head (plan_of bytes.now)) (string_bytes s)) }
{
    match read_plan(alloc, bytes) {
        Ok(plan) => taken(alloc, &plan),
        Err(fault) if fault.is_memory() => Err(AllocError),
        Err(fault) => refused(alloc, bytes, &fault),
    }
}
