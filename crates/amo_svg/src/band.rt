//! Writes the parts above and below the columns of a picture of jobs: the numbers of jobs, and the
//! band that shows who has claimed each job.
ghost use Rattle.std.specs.Prelude.{◌≡◌, ◌++◌, ◌<◌, ◌≤◌, ◌^◌, OnOk, string_bytes};
ghost use Rattle.amo_svg.specs.Band.{axis_mark, axis, axes, band_lane, free_marks, free_title, free_lane};

use crate::elements::{
    push_anchored_number, push_anchored_start, push_number_before, push_place, push_straight,
    push_stroke_start,
};
use crate::pieces::{Kind, push_path, worker_class};
use crate::scale::{band, grid_step, place, wide};
use crate::wording::{Wording, fixed_text};
use amo_trace::Transition;
use std::alloc::AllocError;

/// Appends the number of a job at this height, and its tick, so far down, if the job has one.
#[tactic(auto, unfolding(crate::specs::Band::axis_mark))]
fn push_axis_mark(
    out: &mut String,
    tick: u128,
    y: u128,
    jobs: u32,
    job: u32,
) -> Result<(), AllocError>
    requires { 1 ≤ jobs }
    ensures { OnOk result (string_bytes out.new ≡ string_bytes out.old ++ axis_mark tick y jobs job) }
{
    if job as u128 % grid_step(jobs as usize) != 0 {
        return Ok(());
    }
    let x = place(jobs, job);
    push_straight(out, "f", 1, x, tick, "v", 8)?;
    push_anchored_number(out, "middle", "f", x, y, job as u128)
}

/// Appends the numbers of the first of so many jobs, up to this one.
fn push_axis(out: &mut String, tick: u128, y: u128, jobs: u32, end: u32) -> Result<(), AllocError>
    requires { 1 ≤ jobs }
    ensures { OnOk result (string_bytes out.new ≡ string_bytes out.old ++ axis tick y jobs end) }
{
    for before in 0..end {
        push_axis_mark(out, tick, y, jobs, before + 1)?;
    }
    Ok(())
}

/// Appends the numbers of jobs above the columns, and below the band, which ends at this height.
#[tactic(auto, unfolding(crate::specs::Band::axes))]
pub(crate) fn push_axes(out: &mut String, jobs: u32, end: u128) -> Result<(), AllocError>
    requires some { 1 ≤ jobs }
    requires near { end < 2 ^ 100 }
    ensures { OnOk result (string_bytes out.new ≡ string_bytes out.old ++ axes jobs end) }
{
    push_axis(out, 62, 56, jobs, jobs)?;
    push_axis(out, end + 4, end + 24, jobs, jobs)
}

/// Appends a worker's lane of the band.
#[tactic(auto, unfolding(crate::specs::Band::band_lane))]
pub(crate) fn push_band_lane(
    out: &mut String,
    jobs: u32,
    worker: u32,
    rows: &[Transition],
) -> Result<(), AllocError>
    requires { 1 ≤ jobs }
    ensures { OnOk result (string_bytes out.new ≡ string_bytes out.old ++ band_lane jobs worker rows.now) }
{
    let y = band(worker);
    let class = worker_class(worker);
    push_number_before(out, class, 64, y, worker as u128)?;
    push_straight(out, "p", 1, 72, y, "h", 768)?;
    push_path(out, class, wide(jobs) + 1, Kind::Shares, jobs, worker, rows)
}

/// Appends a mark at this height for each of these jobs.
fn push_free_marks(
    out: &mut String,
    jobs: u32,
    y: u128,
    unclaimed: &[u32],
) -> Result<(), AllocError>
    requires { 1 ≤ jobs }
    ensures { OnOk result (string_bytes out.new ≡ string_bytes out.old ++ free_marks jobs y unclaimed.now) }
{
    for job in unclaimed {
        push_place(out, place(jobs, *job), y)?;
        out.push_str("v-10")?;
    }
    Ok(())
}

/// Appends the title and the name of the last lane of the band.
#[tactic(auto, unfolding(crate::specs::Band::free_title))]
fn push_free_title(out: &mut String, y: u128) -> Result<(), AllocError>
    ensures { OnOk result (string_bytes out.new ≡ string_bytes out.old ++ free_title y) }
{
    out.push_str(fixed_text(Wording::FreeTitle))?;
    push_anchored_start(out, "end", "f", 64, y)?;
    out.push_str("none</text>\n")
}

/// Appends the last lane of the band, which has these jobs.
#[tactic(auto, unfolding(crate::specs::Band::free_lane))]
pub(crate) fn push_free_lane(
    out: &mut String,
    jobs: u32,
    y: u128,
    unclaimed: &[u32],
) -> Result<(), AllocError>
    requires { 1 ≤ jobs }
    ensures { OnOk result (string_bytes out.new ≡ string_bytes out.old ++ free_lane jobs y unclaimed.now) }
{
    push_free_title(out, y)?;
    push_straight(out, "p", 1, 72, y, "h", 768)?;
    push_stroke_start(out, "f", wide(jobs) + 1)?;
    push_free_marks(out, jobs, y, unclaimed)?;
    out.push_str("\"/>\n</g>\n")
}
