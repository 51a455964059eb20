//! Writes the picture of a long run, without its frame: a column for each job, and a narrow lane
//! for each worker.
ghost use Rattle.std.specs.Prelude.{◌≡◌, ◌++◌, ◌<◌, ◌≤◌, ◌^◌, OnOk, string_bytes};
ghost use Rattle.amo_plan.specs.PlanSeen.{plan_seen};
ghost use Rattle.amo_svg.specs.Jobs.{worker_paths, going, going_shape, lifeline, lane_number, lane_numbers, worker_title, worker_drawn, workers_drawn, grid_line, grid, jobs_head, columns_of, jobs_width, band_end, jobs_ground};
ghost use Rattle.amo_svg.specs.Scale.{last_number};

use crate::band::{push_axes, push_band_lane};
use crate::elements::{
    push_number_before, push_straight, push_stroke, push_stroke_start, push_text, push_text_start,
};
use crate::frame::jobs_word;
use crate::pieces::{Kind, push_path, worker_class};
use crate::rows::until_gone;
use crate::scale::{at, band, end_of, grid_step, last_number, narrow_lane, wide};
use crate::scene::Scene;
use amo_kk::{Event, Phase};
use amo_plan::Plan;
use amo_render::dones_of;
use amo_trace::{Transition, transition_at};
use std::alloc::AllocError;

/// Appends the claims of a worker and its failures, by paths of these kinds and this width.
#[tactic(auto, unfolding(crate::specs::Jobs::worker_paths))]
fn push_worker_paths(
    out: &mut String,
    scene: &Scene<'_>,
    width: u128,
    claims: Kind,
    failures: Kind,
    worker: u32,
) -> Result<(), AllocError>
    ensures { OnOk result (string_bytes out.new ≡ string_bytes out.old ++ worker_paths width claims failures (columns_of (plan_seen scene.now.plan.now)) worker scene.now.rows.now) }
{
    let Scene { plan, rows, .. } = *scene;
    let jobs = columns_of(plan);
    push_path(out, worker_class(worker), width, claims, jobs, worker, rows)?;
    push_path(out, "x", width, failures, jobs, worker, rows)
}

/// Returns the row after which the worker is gone.
fn going(worker: u32, rows: &[Transition]) -> Option<Transition>
    ensures { result ≡ going worker rows.now }
{
    transition_at(rows, until_gone(worker, rows))
}

/// Returns the mark of a worker that is gone in this phase.
fn going_shape(phase: Phase) -> &'static str
    ensures { result.now ≡ going_shape phase }
{
    match phase {
        Phase::Over => "m-8 0h16",
        Phase::Left => "m-6 -2h12m0 5h-12",
        Phase::Announcing(_)
        | Phase::Trying(_, _)
        | Phase::Reading(_, _)
        | Phase::Claiming(_)
        | Phase::Holding(_) => "m-6 -6l12 12m0 -12l-12 12",
    }
}

/// Appends the line of a lane, and how it ends.
#[tactic(auto, unfolding(crate::specs::Jobs::lifeline))]
fn push_lifeline(
    out: &mut String,
    last: usize,
    worker: u32,
    gone: Option<Transition>,
) -> Result<(), AllocError>
    requires { 1 ≤ last }
    ensures { OnOk result (string_bytes out.new ≡ string_bytes out.old ++ lifeline last worker gone) }
{
    let x = narrow_lane(worker);
    let end = end_of(last, 0, gone);
    push_stroke_start(out, "b", 2)?;
    write!(out, "M{x} 72V{end}\"/>\n")?;
    match gone {
        None => Ok(()),
        Some(transition) => {
            let y = at(last, transition.number);
            push_stroke(out, "i", 2, x, y, going_shape(transition.after))
        }
    }
}

/// Appends a number at a worker's lane.
#[tactic(auto, unfolding(crate::specs::Jobs::lane_number))]
fn push_lane_number(out: &mut String, worker: u32, y: u128, number: usize) -> Result<(), AllocError>
    ensures { OnOk result (string_bytes out.new ≡ string_bytes out.old ++ lane_number worker y number) }
{
    push_text_start(out, worker_class(worker), narrow_lane(worker) - 12, y)?;
    write!(out, "{number}</text>\n")
}

/// Appends a worker's number, and how many jobs it has done.
#[tactic(auto, unfolding(crate::specs::Jobs::lane_numbers))]
fn push_lane_numbers(out: &mut String, history: &[Event], worker: u32) -> Result<(), AllocError>
    ensures { OnOk result (string_bytes out.new ≡ string_bytes out.old ++ lane_numbers history.now worker) }
{
    let dones = dones_of(worker as usize, history);
    push_lane_number(out, worker, 56, worker as usize)?;
    push_lane_number(out, worker, 1052, dones)
}

/// Appends the title of a worker's marks.
#[tactic(auto, unfolding(crate::specs::Jobs::worker_title))]
fn push_worker_title(out: &mut String, worker: u32) -> Result<(), AllocError>
    ensures { OnOk result (string_bytes out.new ≡ string_bytes out.old ++ worker_title worker) }
{
    write!(out, "<g><title>worker {worker}</title>\n")
}

/// Appends all marks of a worker.
#[tactic(auto, unfolding(crate::specs::Jobs::worker_drawn))]
fn push_worker_drawn(out: &mut String, scene: &Scene<'_>, worker: u32) -> Result<(), AllocError>
    ensures { OnOk result (string_bytes out.new ≡ string_bytes out.old ++ worker_drawn scene.now.world.now.world.history (columns_of (plan_seen scene.now.plan.now)) scene.now.rows.now worker) }
{
    let Scene {
        plan,
        world,
        rows,
        ..
    } = *scene;
    let jobs = columns_of(plan);
    let width = wide(jobs) + 1;
    push_worker_title(out, worker)?;
    push_worker_paths(out, scene, width, Kind::Holds, Kind::Failures, worker)?;
    push_worker_paths(out, scene, 2, Kind::Ticks, Kind::Crosses, worker)?;
    push_lifeline(out, last_number(rows), worker, going(worker, rows))?;
    push_lane_numbers(out, world.history(), worker)?;
    push_band_lane(out, jobs, worker, rows)?;
    out.push_str("</g>\n")
}

/// Appends the marks of so many workers.
pub(crate) fn push_workers_drawn(
    out: &mut String,
    scene: &Scene<'_>,
    workers: u32,
) -> Result<(), AllocError>
    ensures { OnOk result (string_bytes out.new ≡ string_bytes out.old ++ workers_drawn scene.now.world.now.world.history (columns_of (plan_seen scene.now.plan.now)) scene.now.rows.now workers) }
{
    for before in 0..workers {
        push_worker_drawn(out, scene, before + 1)?;
    }
    Ok(())
}

/// Appends the level line of a move that has one, and its number.
#[tactic(auto, unfolding(crate::specs::Jobs::grid_line))]
fn push_grid_line(
    out: &mut String,
    width: u128,
    last: usize,
    number: usize,
) -> Result<(), AllocError>
    requires { 1 ≤ last }
    ensures { OnOk result (string_bytes out.new ≡ string_bytes out.old ++ grid_line width last number) }
{
    if number as u128 % grid_step(last) != 0 {
        return Ok(());
    }
    let y = at(last, number);
    push_number_before(out, "f", 64, y + 4, number as u128)?;
    push_straight(out, "p", 1, 72, y, "h", width.saturating_sub(88))
}

/// Appends the level lines below this number.
fn push_grid(out: &mut String, width: u128, last: usize, end: usize) -> Result<(), AllocError>
    requires { 1 ≤ last }
    ensures { OnOk result (string_bytes out.new ≡ string_bytes out.old ++ grid width last end) }
{
    for number in 0..end {
        push_grid_line(out, width, last, number)?;
    }
    Ok(())
}

/// Appends what stands above the columns, the lanes and the band.
#[tactic(auto, unfolding(crate::specs::Jobs::jobs_head))]
fn push_jobs_head(out: &mut String, version: u32, jobs: u32) -> Result<(), AllocError>
    ensures { OnOk result (string_bytes out.new ≡ string_bytes out.old ++ jobs_head version jobs) }
{
    push_text_start(out, "i", 72, 40)?;
    out.push_str(jobs_word(version))?;
    write!(out, " 1 to {jobs}</text>\n")?;
    push_text(out, "i", 872, 40, "workers")?;
    push_text(out, "i", 16, 1048, "claimed by")
}

/// Returns how many jobs the columns are placed by.
pub(crate) fn columns_of(plan: &Plan) -> u32
    ensures value { result ≡ columns_of (plan_seen plan.now) }
    ensures some { 1 ≤ result }
{
    plan.heads.givens.jobs.max(1)
}

/// Returns how wide the picture is.
pub(crate) fn jobs_width(plan: &Plan) -> u128
    ensures value { result ≡ jobs_width (plan_seen plan.now) }
{
    880 + 36 * plan.heads.givens.workers.max(2) as u128
}

/// Returns how far down the band ends.
pub(crate) fn band_end(plan: &Plan) -> u128
    ensures value { result ≡ band_end (plan_seen plan.now) }
    ensures near { result < 2 ^ 40 }
{
    band(plan.heads.givens.workers + 1)
}

/// Appends the ground below the workers' marks.
#[tactic(auto, unfolding(crate::specs::Jobs::jobs_ground))]
pub(crate) fn push_jobs_ground(out: &mut String, scene: &Scene<'_>) -> Result<(), AllocError>
    ensures { OnOk result (string_bytes out.new ≡ string_bytes out.old ++ jobs_ground (plan_seen scene.now.plan.now) scene.now.rows.now) }
{
    let Scene { plan, rows, .. } = *scene;
    let jobs = columns_of(plan);
    let last = last_number(rows);
    push_jobs_head(out, plan.heads.version, plan.heads.givens.jobs)?;
    push_axes(out, jobs, band_end(plan))?;
    push_grid(out, jobs_width(plan), last, last)?;
    push_grid_line(out, jobs_width(plan), last, last)?;
    push_path(out, "p", wide(jobs), Kind::Columns, jobs, 0, rows)
}
