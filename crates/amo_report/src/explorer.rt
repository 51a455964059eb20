//! The explorer: texts on numbered schedules.
ghost use Rattle.std.specs.Prelude.{◌≡◌, ◌≤◌, ◌++◌, ℕ, OnOk, IfOk, string_bytes};
ghost use Rattle.amo_kk.specs.World.{world_after_moves};
ghost use Rattle.amo_world.specs.declared.answer.Verdict.TheVariants.{Lawful};
ghost use Rattle.amo_plan.specs.PlanSeen.{plan_seen};
ghost use Rattle.amo_plan.specs.declared.limits.TheConstants.{MOST_FIRST, MOST_COUNT, MOST_TURNS};
ghost use Rattle.amo_report.specs.Explorer.{schedule, explored_world, explored_verdict, explored_dones, schedule_line, explored_line, explore_of};

use crate::laws::histories_are_lawful;
use crate::running::run_rounds;
use crate::summary::{lesser, push_counts, push_least, push_verdict};
use amo_kk::Event;
use amo_plan::Plan;
use amo_render::{count_ends, count_performances};
use amo_world::{Verdict, World, judge};
use std::alloc::{AllocError, Global};

/// Runs the turns of a numbered schedule of this length.
fn run_schedule(world: &mut World, number: u64, length: u32)
    ensures { world.new ≡ record { givens = world.old.givens; world = world_after_moves world.old.givens world.old.world (schedule world.old.givens.workers number length) } }
{
    let workers = world.givens().workers;
    let mut digits = number;
    for _turn in 0..length {
        let digit = (digits % workers as u64) as u32;
        let _turned = world.turn(digit + 1);
        digits /= workers as u64;
    }
}

/// Returns the world after a numbered schedule and the passes of the plan. Fails if there was no
/// memory.
fn run_explored(alloc: Global, plan: &Plan, number: u64, length: u32) -> Result<World, AllocError>
    ensures { IfOk result (λ w. w ≡ record { givens = (plan_seen plan.now).givens; world = explored_world (plan_seen plan.now) length number }) }
{
    let mut world = World::new(alloc, plan.heads.givens)?;
    run_schedule(&mut world, number, length);
    run_rounds(&mut world, plan.heads.rounds);
    Ok(world)
}

/// Appends the line of a schedule with this history and verdict.
#[tactic(auto, unfolding(crate::specs::Explorer::schedule_line))]
fn push_schedule(
    out: &mut String,
    number: u64,
    history: &[Event],
    verdict: Verdict,
) -> Result<(), AllocError>
    ensures { OnOk result (string_bytes out.new ≡ string_bytes out.old ++ schedule_line number history.now verdict) }
{
    let ends = count_ends(history);
    write!(out, "schedule {number}")?;
    push_counts(out, history)?;
    write!(out, " ended {ends}")?;
    push_verdict(out, verdict)?;
    writeln!(out)
}

/// Appends the line of a numbered schedule, which is run in a world of its own, and returns how
/// many jobs are done in it.
fn push_explored(
    alloc: Global,
    out: &mut String,
    plan: &Plan,
    number: u64,
    length: u32,
) -> Result<usize, AllocError>
    ensures line { OnOk result (string_bytes out.new ≡ string_bytes out.old ++ explored_line (plan_seen plan.now) length number) }
    ensures dones { IfOk result (λ dones. dones ≡ explored_dones (plan_seen plan.now) length number) }
{
    let world = run_explored(alloc, plan, number, length)?;
    let history = world.history();
    let verdict = judge(alloc, plan.heads.givens, history)?;
    push_schedule(out, number, history, verdict)?;
    Ok(count_performances(history))
}

/// Returns the text of the explorer: a line for each of `count` schedules of `length` turns, from
/// number `from` on. A last line has the least number of done jobs. Each schedule runs in a fresh
/// world, followed by the plan's passes. The plan's own schedule isn't used. A line has how much
/// was claimed and done, how many workers ended, and the judge's verdict, which is always `lawful`.
/// Turn i of schedule s, counted from 0, is of worker `s / workers ^ i % workers + 1`. The numbers
/// must be within `MOST_FIRST`, 1 to `MOST_COUNT`, and `MOST_TURNS`.
///
/// # Errors
///
/// `AllocError` if memory is refused.
#[tactic(auto, using(amo_render::proofs::Least::pieces_more, amo_render::proofs::Least::least_more))]
pub fn explore(
    alloc: Global,
    plan: &Plan,
    from: u64,
    count: u32,
    length: u32,
) -> Result<String, AllocError>
    requires from { from ≤ MOST_FIRST }
    requires some { 1 ≤ count }
    requires few { count ≤ MOST_COUNT }
    requires short { length ≤ MOST_TURNS }
    ensures text { IfOk result (λ s. string_bytes s ≡ explore_of (plan_seen plan.now) from count length) }
    ensures lawful { (s : ℕ) → explored_verdict (plan_seen plan.now) length s ≡ Lawful }
{
    histories_are_lawful();
    let mut out = String::new(alloc);
    let mut least = None;
    for before in 0..count {
        let dones = push_explored(alloc, &mut out, plan, from + before as u64, length)?;
        least = Some(lesser(dones, least));
    }
    push_least(&mut out, least)?;
    Ok(out)
}
