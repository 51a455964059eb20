//! The text of the outcome of a run.
ghost use Rattle.std.specs.Prelude.{◌≡◌, ◌++◌, ◌≤◌, ◌<◌, ◌^◌, ℕ, OnOk, IfOk, string_bytes, length};
ghost use Rattle.amo_run_plan.specs.Became.{listed};
ghost use Rattle.amo_run_plan.specs.Noted.{noted_fate};
ghost use Rattle.amo_run_plan.specs.OutcomeTexts.{run_lines, fates_of, outcome_of, FitsHeads};

use crate::block_done::{count_filed, count_filed_jobs, filed_of};
use crate::claimers::claimers_of;
use crate::outcome_lines::{Notes, push_ends, push_jobs};
use amo_crew::Outcome;
use amo_params::Givens;
use amo_plan::{Answer, Block, Heads};
use amo_render::{push_first_line, push_tally};
use std::alloc::{AllocError, Global};

/// Notes what became of each block.
fn notes_of<'a>(
    alloc: Global,
    givens: Givens,
    outcome: &'a Outcome<Block, Vec<Answer>>,
) -> Result<Notes<'a>, AllocError>
    requires { length outcome.now.settlement.claims.items < 2 ^ 32 }
    ensures len { IfOk result (λ n. length n.filed.items ≡ givens.jobs) }
    ensures fates { IfOk result (λ n. (b : ℕ) → 1 ≤ b → b ≤ givens.jobs → noted_fate n.outputs.now n.filed.items n.claimers.items b ≡ fates_of outcome.now b) }
{
    let outputs = outcome.outputs.as_slice();
    let filed = filed_of(alloc, givens.jobs, &outcome.settlement.dones, outputs)?;
    let claimers = claimers_of(alloc, givens.jobs, &outcome.settlement.claims)?;
    Ok(Notes {
        outputs,
        filed,
        claimers,
    })
}

/// Appends the text of an outcome of which this is noted.
#[tactic(auto, unfolding(crate::specs::OutcomeTexts::run_lines))]
fn push_run(
    alloc: Global,
    out: &mut String,
    heads: &Heads,
    outcome: &Outcome<Block, Vec<Answer>>,
    notes: &Notes<'_>,
) -> Result<(), AllocError>
    requires some { 1 ≤ heads.now.block }
    requires claims { length outcome.now.settlement.claims.items ≡ length outcome.now.ends.items }
    requires dones { length outcome.now.settlement.dones.items ≡ length outcome.now.ends.items }
    requires len { length notes.now.filed.items ≡ heads.now.givens.jobs }
    ensures { OnOk result (string_bytes out.new ≡ string_bytes out.old
        ++ run_lines heads.now outcome.now.ends.items (listed outcome.now.settlement.claims.items) (listed outcome.now.settlement.dones.items)
        (noted_fate notes.now.outputs.now notes.now.filed.items notes.now.claimers.items)) }
{
    let names = heads.names.as_slice();
    let settlement = &outcome.settlement;
    push_first_line(out, heads)?;
    push_ends(out, &outcome.ends, &settlement.claims, &settlement.dones)?;
    push_jobs(alloc, out, notes, heads.block, names)?;
    let dones = count_filed(&notes.filed);
    let done_jobs = count_filed_jobs(&notes.filed, heads.block, names.len());
    push_tally(out, heads.version, dones, done_jobs)?;
    Ok(())
}

/// Returns the text of the outcome of a plan: its numbers, the end of each worker, the fate of each
/// job, and the counts of performances. A job is done by the least worker that has its block among
/// its dones and an output of it. Otherwise it is claimed by the least worker that has its block
/// among its claims, or else free.
///
/// # Errors
///
/// `AllocError` if there was no memory.
pub fn outcome_text(
    alloc: Global,
    heads: &Heads,
    outcome: &Outcome<Block, Vec<Answer>>,
) -> Result<String, AllocError>
    requires { FitsHeads heads.now outcome.now }
    ensures { IfOk result (λ s. string_bytes s ≡ outcome_of heads.now outcome.now) }
{
    let notes = notes_of(alloc, heads.givens, outcome)?;
    let mut out = String::new(alloc);
    push_run(alloc, &mut out, heads, outcome, &notes)?;
    Ok(out)
}
