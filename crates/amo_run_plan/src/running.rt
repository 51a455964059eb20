//! From the bytes of a plan to the text of a run of it.
ghost use Rattle.std.specs.Prelude.{◌≡◌, true, false, OnOk, IfOk, IfErr, length, string_bytes};
ghost use Rattle.std.specs.List.{list_all};
ghost use Rattle.amo_plan.specs.Keeps.{Keeps};
ghost use Rattle.amo_plan.specs.Limits.{is_small};
ghost use Rattle.amo_plan.specs.PlanSeen.{plan_seen};
ghost use Rattle.std.specs.Io.KnownBytes.{IsAtEnd};
ghost use Rattle.amo_render.specs.Written.{is_failed_read, is_failed_write};
ghost use Rattle.amo_run_plan.specs.Runs.{HasComeOf, IsRunText, WritesRun, RefusesRun};

use crate::block_work::BlockWork;
use crate::outcome::outcome_text;
use crate::started::Started;
use amo_crew::laws::outcome_fits;
use amo_crew::{ExecFault, Outcome, StopFault, StopPlan, execute};
use amo_io::{Sink, Source};
use amo_plan::{Answer, Block, Heads, Plan, blocks_of};
use amo_render::{ReplayFault, read_source, write_text};
use std::alloc::{AllocError, Global};
use std::sync::Wait;
use std::thread::Threads;

/// The result of a run.
#[derive(Drop)]
struct Executed {
    outcome: Outcome<Block, Vec<Answer>>,
    started: Started,
}

/// Returns the budgets of a plan. Fails if there was no memory.
#[tactic(auto, using(crate::proofs::Budgets::only_memory))]
fn stops_of(alloc: Global, heads: &Heads) -> Result<StopPlan, AllocError>
    requires count { length heads.now.budgets ≡ heads.now.givens.workers }
    requires small { list_all is_small heads.now.budgets ≡ true }
    ensures { IfOk result (λ s. (s.givens ≡ heads.now.givens) × (s.budgets ≡ heads.now.budgets)) }
{
    match StopPlan::try_new(alloc, heads.givens, heads.budgets.as_slice()) {
        Ok(stops) => Ok(stops),
        Err(StopFault::NoMemory) => Err(AllocError),
        Err(StopFault::WrongCount) => unreachable!(),
        Err(StopFault::TooLarge(_)) => unreachable!(),
    }
}

/// Executes the blocks of a plan in threads, each worker with its budget. Fails if there was no
/// memory.
fn run_blocks<R: Threads + Wait + Sync>(
    rt: &R,
    alloc: Global,
    heads: &Heads,
    blocks: Vec<Block>,
) -> Result<Executed, AllocError>
    requires jobs { length blocks.items ≡ heads.now.givens.jobs }
    requires count { length heads.now.budgets ≡ heads.now.givens.workers }
    requires small { list_all is_small heads.now.budgets ≡ true }
    ensures { IfOk result (λ e. HasComeOf heads.now.givens blocks.items heads.now.budgets e.started e.outcome) }
{
    let stops = stops_of(alloc, heads)?;
    match execute(rt, alloc, heads.givens, blocks, &BlockWork, &stops) {
        Ok(outcome) => Ok(Executed {
            outcome,
            started: Started::All,
        }),
        Err(ExecFault::ThreadRefused(outcome)) => Ok(Executed {
            outcome,
            started: Started::NotAll,
        }),
        Err(ExecFault::NoMemory(_) | ExecFault::Unsettled(_)) => Err(AllocError),
        Err(ExecFault::WrongCount(_)) => unreachable!(),
    }
}

/// Executes the jobs of a plan in threads. Returns the text of the outcome, and whether each thread
/// was started. If one wasn't, the text is on the work of the others. Fails if there was no memory.
fn run_text<R: Threads + Wait + Sync>(
    rt: &R,
    alloc: Global,
    plan: Plan,
) -> Result<(String, Started), AllocError>
    requires { Keeps (plan_seen plan) }
    ensures { IfOk result (λ r. IsRunText r.1 (plan_seen plan) (string_bytes r.0)) }
{
    let Plan { heads, tasks, .. } = plan;
    let blocks = blocks_of(alloc, tasks.into_vec(), heads.block)?;
    let executed = run_blocks(rt, alloc, &heads, blocks)?;
    outcome_fits(&BlockWork);
    let text = outcome_text(alloc, &heads, &executed.outcome)?;
    Ok((text, executed.started))
}

/// Reads a plan to the end of the reader, executes its jobs in threads, and writes the text of the
/// outcome and nothing else. Returns whether each thread was started. If one wasn't, the text is on
/// the work of the others. Neither stream may have failed. It may wait.
///
/// # Errors
///
/// The fault of the read, the plan or the write. `ReplayFault` states for each fault which state it
/// leaves.
#[tactic(auto, using(crate::proofs::RunTexts::writes, crate::proofs::RunTexts::writes_front))]
pub fn run_plan<R: Threads + Wait + Sync, S: Source, W: Sink>(
    rt: &R,
    alloc: Global,
    reader: &mut S,
    writer: &mut W,
) -> Result<Started, ReplayFault>
    requires reader { S.failed reader.old ≡ false }
    requires writer { W.failed writer.old ≡ false }
    ensures end { OnOk result (IsAtEnd (S.remaining reader.new)) }
    ensures text { IfOk result (λ started. WritesRun started (S.remaining reader.old) (W.contents writer.old) (W.contents writer.new)) }
    ensures passed { OnOk result (W.waiting writer.new ≡ false) }
    ensures source { S.failed reader.new ≡ is_failed_read result }
    ensures sink { W.failed writer.new ≡ is_failed_write result }
    ensures refused { IfErr result (λ e. RefusesRun e (S.remaining reader.old) (W.contents writer.old) (W.contents writer.new)) }
{
    let plan = read_source(alloc, reader)?;
    let (text, started) = run_text(rt, alloc, plan)?;
    write_text(writer, &text)?;
    Ok(started)
}
