//! The text of the plan with the worst schedule.
ghost use Rattle.std.specs.Prelude.{◌≡◌, ◌++◌, OnOk, IfOk, string_bytes};
ghost use Rattle.amo_plan.specs.PlanSeen.{plan_seen};
ghost use Rattle.amo_worst_case.specs.Text.{block_line, head_lines, plan_text};

use crate::jobs::push_jobs;
use crate::quoted::Quoted;
use crate::schedule::worst_schedule;
use amo_params::Givens;
use amo_plan::Plan;
use std::alloc::{AllocError, Global};

/// Appends the line of the block: none in version 1.
#[tactic(auto, unfolding(crate::specs::Text::block_line))]
fn push_block(out: &mut String, version: u32, block: u32) -> Result<(), AllocError>
    ensures { OnOk result (string_bytes out.new ≡ string_bytes out.old ++ block_line version block) }
{
    if version == 1 {
        return Ok(());
    }
    writeln!(out, "block = {block}")
}

/// Appends the lines above the jobs.
#[tactic(auto, unfolding(crate::specs::Text::head_lines))]
fn push_head(
    alloc: Global,
    out: &mut String,
    version: u32,
    block: u32,
    givens: Givens,
) -> Result<(), AllocError>
    ensures { OnOk result (string_bytes out.new ≡ string_bytes out.old ++ head_lines version block givens) }
{
    let beta = givens.beta;
    let workers = givens.workers;
    let schedule = worst_schedule(alloc, givens)?;
    let schedule = Quoted {
        text: schedule.as_str(),
    };
    writeln!(out, "beta = {beta}")?;
    push_block(out, version, block)?;
    writeln!(
        out,
        "schedule = {schedule}\nversion = {version}\nworkers = {workers}"
    )
}

/// Returns the text of the plan that has the jobs of this one and the worst schedule. Fails if
/// there was no memory.
pub(crate) fn plan_text(alloc: Global, plan: &Plan) -> Result<String, AllocError>
    ensures { IfOk result (λ s. string_bytes s ≡ plan_text (plan_seen plan.now)) }
{
    let heads = &plan.heads;
    let mut out = String::new(alloc);
    push_head(alloc, &mut out, heads.version, heads.block, heads.givens)?;
    push_jobs(&mut out, heads.names.as_slice(), plan.tasks.as_slice())?;
    Ok(out)
}
