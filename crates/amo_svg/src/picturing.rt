//! The picture of a plan, as a text.
ghost use Rattle.std.specs.Prelude.{◌≡◌, ◌++◌, ◌≤◌, OnOk, IfOk, string_bytes, length};
ghost use Rattle.std.specs.List.{filter};
ghost use Rattle.amo_plan.specs.PlanSeen.{plan_seen};
ghost use Rattle.amo_svg.specs.declared.picturing.TheConstants.{MOST_ROWS};
ghost use Rattle.amo_svg.specs.Jobs.{jobs_picture};
ghost use Rattle.amo_svg.specs.Picture.{rows_picture, picture_in, picture_of};
ghost use Rattle.amo_svg.specs.Rows.{acts};

use crate::band::push_free_lane;
use crate::feet::push_lane_feet;
use crate::frame::{push_foot, push_head, push_key};
use crate::jobs::{band_end, columns_of, jobs_width, push_jobs_ground, push_workers_drawn};
use crate::marks::row;
use crate::rows::{changes, push_lane_heads, push_rows, rows_width};
use crate::scene::Scene;
use crate::unclaimed::unclaimed_jobs;
use crate::wording::{jobs_key, rows_key};
use amo_plan::Plan;
use amo_trace::{Transition, run_of};
use std::alloc::{AllocError, Global};

/// The most rows of a picture; of a longer run the jobs are drawn.
const MOST_ROWS: usize = 400;

/// Returns the transitions that change something. Fails if there was no memory.
fn rows_of(alloc: Global, transitions: &[Transition]) -> Result<Vec<Transition>, AllocError>
    ensures { IfOk result (λ v. v.items ≡ filter (λ s. acts s.act) transitions.now) }
{
    let mut rows = Vec::new(alloc);
    for transition in transitions {
        if changes(transition) {
            rows.push(*transition)?;
        }
    }
    Ok(rows)
}

/// Appends the picture with a row for each of these transitions.
#[tactic(auto, unfolding(crate::specs::Picture::rows_picture))]
fn push_rows_picture(alloc: Global, out: &mut String, scene: &Scene<'_>) -> Result<(), AllocError>
    requires short { length scene.now.rows.now ≤ MOST_ROWS }
    requires same { scene.now.world.now.givens ≡ scene.now.plan.now.heads.givens }
    ensures { OnOk result (string_bytes out.new ≡ string_bytes out.old ++ rows_picture (plan_seen scene.now.plan.now) scene.now.world.now.world scene.now.unclaimed.now scene.now.rows.now) }
{
    let Scene { world, rows, .. } = *scene;
    let workers = scene.plan.heads.givens.workers;
    let end = row(rows.len() + 1);
    push_head(alloc, out, scene, rows_width(workers), end + 192)?;
    push_lane_heads(out, rows, workers)?;
    push_rows(alloc, out, workers, rows)?;
    push_lane_feet(out, world, end)?;
    push_foot(out, scene, end + 60)?;
    push_key(out, end + 60, &rows_key())
}

/// Appends the picture with a column for each job.
#[tactic(auto, unfolding(crate::specs::Jobs::jobs_picture))]
fn push_jobs_picture(alloc: Global, out: &mut String, scene: &Scene<'_>) -> Result<(), AllocError>
    requires { scene.now.world.now.givens ≡ scene.now.plan.now.heads.givens }
    ensures { OnOk result (string_bytes out.new ≡ string_bytes out.old ++ jobs_picture (plan_seen scene.now.plan.now) scene.now.world.now.world scene.now.unclaimed.now scene.now.rows.now) }
{
    let plan = scene.plan;
    let end = band_end(plan);
    push_head(alloc, out, scene, jobs_width(plan), end + 160)?;
    push_jobs_ground(out, scene)?;
    push_workers_drawn(out, scene, plan.heads.givens.workers)?;
    push_free_lane(out, columns_of(plan), end, scene.unclaimed)?;
    push_foot(out, scene, end + 60)?;
    push_key(out, end + 60, &jobs_key())
}

/// Appends the picture of a run with these rows.
fn push_picture(alloc: Global, out: &mut String, scene: &Scene<'_>) -> Result<(), AllocError>
    requires { scene.now.world.now.givens ≡ scene.now.plan.now.heads.givens }
    ensures { OnOk result (string_bytes out.new ≡ string_bytes out.old ++ picture_in (plan_seen scene.now.plan.now) scene.now.world.now.world scene.now.unclaimed.now scene.now.rows.now) }
{
    if scene.rows.len() <= MOST_ROWS {
        return push_rows_picture(alloc, out, scene);
    }
    push_jobs_picture(alloc, out, scene)
}

/// Returns the picture of a plan, an SVG text. It has a row for each move that changes something,
/// if these are at most `MOST_ROWS`. Otherwise it has a column for each job.
///
/// # Errors
///
/// `AllocError` if there was no memory.
pub fn picture_text(alloc: Global, plan: &Plan) -> Result<String, AllocError>
    ensures { IfOk result (λ s. string_bytes s ≡ picture_of (plan_seen plan.now)) }
{
    let run = run_of(alloc, plan)?;
    let unclaimed = unclaimed_jobs(alloc, &run.world)?;
    let rows = rows_of(alloc, &run.transitions)?;
    let mut out = String::new(alloc);
    let scene = Scene {
        plan,
        world: &run.world,
        unclaimed: &unclaimed,
        rows: &rows,
    };
    push_picture(alloc, &mut out, &scene)?;
    Ok(out)
}
