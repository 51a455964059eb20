//! The text of stops: a schedule that is cut off after each of its moves.
ghost use Rattle.std.specs.Prelude.{◌≡◌, ◌≤◌, ◌+◌, ◌*◌, ◌++◌, ℕ, true, false, length, OnOk, IfOk, string_bytes};
ghost use Rattle.amo_params.specs.Givens.{IsWorker, lone_bound};
ghost use Rattle.amo_kk.specs.World.{process};
ghost use Rattle.amo_kk.specs.Alone.{world_after_turns};
ghost use Rattle.amo_world.specs.declared.answer.Verdict.TheVariants.{Lawful};
ghost use Rattle.amo_plan.specs.PlanSeen.{plan_seen};
ghost use Rattle.amo_report.specs.Reached.{IsReached, most_before_a_claim, most_before_an_end, most_before_all_ends};
ghost use Rattle.amo_report.specs.declared.stops.TheConstants.{MOST_STOPS};
ghost use Rattle.amo_report.specs.Stops.{lone_turns, run_out, all_run_out, stopped_world, stopped, stopped_verdict, stopped_dones, stop_line, stopped_line, stops_of};

use crate::laws::stops_run_out;
use crate::summary::{lesser, push_counts, push_least, push_verdict};
use amo_kk::Event;
use amo_plan::Plan;
use amo_render::count_performances;
use amo_world::{Verdict, World, judge};
use std::alloc::{AllocError, Global};

/// The most moves of a plan for which stops are computed, 1000.
pub const MOST_STOPS: usize = 1000;

/// Runs worker p, which isn't gone, alone until it claims a job or ends, and returns how many turns
/// it took. The world is far from the limit of a worker's count of steps.
fn lone_run(world: &mut World, p: u32) -> u64
    requires here { (process world.old.world p).gone ≡ false }
    requires reached { IsReached world.old.givens most_before_a_claim world.old.world }
    ensures turns { result ≡ lone_turns world.old.givens p (lone_bound world.old.givens) world.old.world }
    ensures world { world.new ≡ record { givens = world.old.givens; world = world_after_turns world.old.givens world.old.world p result } }
{
    let before = world.turns_of(p);
    let _alone = world.run_alone(p);
    world.turns_of(p) - before
}

/// Runs worker p alone until it is gone, and returns the most turns that it, or another before,
/// took in one go.
fn run_out(world: &mut World, p: u32, mut most: u64) -> u64
    requires worker { IsWorker world.old.givens p }
    requires reached { IsReached world.old.givens most_before_an_end world.old.world }
    requires most { most ≤ lone_bound world.old.givens }
    ensures world { world.new ≡ record { givens = world.old.givens; world = (run_out world.old.givens p (record { world = world.old.world; most = most })).world } }
    ensures most { result ≡ (run_out world.old.givens p (record { world = world.old.world; most = most })).most }
{
    // It claims each job at most once and ends, so it is gone after so many times.
    for _time in 0..world.givens().jobs + 1 {
        if !world.is_gone(p) {
            most = most.max(lone_run(world, p));
        }
    }
    most
}

/// Runs each worker that isn't gone, in order, alone until it is gone. It returns the most turns
/// that one took in one go.
fn run_all_out(world: &mut World) -> u64
    requires { IsReached world.old.givens most_before_all_ends world.old.world }
    ensures world { world.new ≡ record { givens = world.old.givens; world = (all_run_out world.old.givens world.old.givens.workers (record { world = world.old.world; most = 0 })).world } }
    ensures most { result ≡ (all_run_out world.old.givens world.old.givens.workers (record { world = world.old.world; most = 0 })).most }
{
    let mut most = 0;
    let workers = world.givens().workers;
    for before in 0..workers {
        most = run_out(world, before + 1, most);
    }
    most
}

/// Returns the world in which worker p crashes after the first `count` moves of the plan. Fails if
/// there was no memory.
fn stop_after(alloc: Global, plan: &Plan, p: u32, count: usize) -> Result<World, AllocError>
    requires worker { IsWorker plan.now.heads.givens p }
    requires count { count ≤ length plan.now.heads.moves }
    ensures { IfOk result (λ w. w ≡ record { givens = plan.now.heads.givens; world = stopped_world (plan_seen plan.now) p count }) }
{
    let mut world = World::new(alloc, plan.heads.givens)?;
    let (moves, _later) = plan.heads.moves.as_slice().split_at(count);
    world.run(moves);
    let _halted = world.halt(p);
    Ok(world)
}

/// Appends the line of a stop with this history and verdict.
#[tactic(auto, unfolding(crate::specs::Stops::stop_line))]
fn push_stop(
    out: &mut String,
    count: usize,
    history: &[Event],
    most: u64,
    verdict: Verdict,
) -> Result<(), AllocError>
    ensures { OnOk result (string_bytes out.new ≡ string_bytes out.old ++ stop_line count history.now most verdict) }
{
    write!(out, "stop {count}")?;
    push_counts(out, history)?;
    write!(out, " most {most}")?;
    push_verdict(out, verdict)?;
    writeln!(out)
}

/// Appends the line of the crash after so many moves, in a world of its own, and returns how many
/// jobs are done in it.
fn push_stopped(
    alloc: Global,
    out: &mut String,
    plan: &Plan,
    p: u32,
    count: usize,
) -> Result<usize, AllocError>
    requires worker { IsWorker plan.now.heads.givens p }
    requires count { count ≤ length plan.now.heads.moves }
    requires few { length plan.now.heads.moves ≤ MOST_STOPS }
    ensures line { OnOk result (string_bytes out.new ≡ string_bytes out.old ++ stopped_line (plan_seen plan.now) p count) }
    ensures dones { IfOk result (λ dones. dones ≡ stopped_dones (plan_seen plan.now) p count) }
{
    let mut world = stop_after(alloc, plan, p, count)?;
    let most = run_all_out(&mut world);
    let history = world.history();
    let verdict = judge(alloc, plan.heads.givens, history)?;
    push_stop(out, count, history, most, verdict)?;
    Ok(count_performances(history))
}

/// Returns the text of stops: a line for each number of moves, from 0 to that of the plan's
/// schedule. A last line has the least number of done jobs. In a fresh world the plan makes so many
/// moves, and worker p crashes. Then each worker that isn't gone runs alone until it ends, in the
/// order of the workers. A line has how much was claimed and done, and the most turns that a worker
/// took in one go to claim a job or end. It ends with the judge's verdict, which is always
/// `lawful`. The plan's passes aren't used. The plan must have a worker p, and at most `MOST_STOPS`
/// moves.
///
/// # Errors
///
/// `AllocError` if memory is refused.
#[tactic(auto, using(amo_render::proofs::Least::pieces_more, amo_render::proofs::Least::least_more))]
pub fn stops_text(alloc: Global, plan: &Plan, p: u32) -> Result<String, AllocError>
    requires low { 1 ≤ p }
    requires high { p ≤ plan.now.heads.givens.workers }
    requires few { length plan.now.heads.moves ≤ MOST_STOPS }
    ensures text { IfOk result (λ s. string_bytes s ≡ stops_of (plan_seen plan.now) p) }
    ensures most { (count : ℕ) → (stopped (plan_seen plan.now) p count).most ≤ 6 * plan.now.heads.givens.workers + plan.now.heads.givens.jobs }
    ensures gone { (count q : ℕ) → (process (stopped (plan_seen plan.now) p count).world q).gone ≡ true }
    ensures lawful { (count : ℕ) → stopped_verdict (plan_seen plan.now) p count ≡ Lawful }
{
    stops_run_out();
    let mut out = String::new(alloc);
    let mut least = None;
    for count in 0..plan.heads.moves.as_slice().len() + 1 {
        let dones = push_stopped(alloc, &mut out, plan, p, count)?;
        least = Some(lesser(dones, least));
    }
    push_least(&mut out, least)?;
    Ok(out)
}
