//! Writes what stands above and below the lanes of a picture.
ghost use Rattle.std.specs.Prelude.{◌≡◌, ◌++◌, ◌<◌, ◌^◌, OnOk, string_bytes, length};
ghost use Rattle.amo_plan.specs.PlanSeen.{plan_seen};
ghost use Rattle.amo_render.specs.Numbers.{spaced};
ghost use Rattle.amo_svg.specs.Frame.{svg_start, jobs_word, list_start, listed_words, counted_words, unclaimed_words, heading, description, ground_end, ground, first_text, head, performed_text, unclaimed_text, foot, key};

use crate::elements::{push_area_start, push_text, push_text_start, push_two_attributes};
use crate::scene::Scene;
use crate::wording::{Wording, fixed_text};
use amo_kk::laws::runs_are_short;
use amo_plan::Plan;
use amo_render::{
    push_first_line, push_first_words, push_performed, push_performed_words, push_workers,
};
use amo_report::all_turns;
use std::alloc::{AllocError, Global};

/// The most jobs without a claim that are listed. More of them are counted instead.
const MOST_LISTED: usize = 8;

/// Appends the start of a picture of this width and height.
#[tactic(auto, unfolding(crate::specs::Frame::svg_start))]
fn push_svg_start(out: &mut String, width: u128, height: u128) -> Result<(), AllocError>
    ensures { OnOk result (string_bytes out.new ≡ string_bytes out.old ++ svg_start width height) }
{
    out.push_str(fixed_text(Wording::SvgOpen))?;
    write!(out, "{width} {height}")?;
    push_two_attributes(out, "width", width, "height", height)?;
    out.push_str("\n")
}

/// Returns the word for the algorithm's jobs.
pub(crate) fn jobs_word(version: u32) -> &'static str
    ensures { result.now ≡ jobs_word version }
{
    if version == 1 { "jobs" } else { "blocks" }
}

/// Returns how the list of unclaimed jobs begins.
fn list_start(version: u32) -> &'static str
    ensures { result.now ≡ list_start version }
{
    if version == 1 {
        "unclaimed"
    } else {
        "unclaimed blocks"
    }
}

/// Appends each of these numbers after a space.
fn push_spaced(out: &mut String, numbers: &[u32]) -> Result<(), AllocError>
    ensures { OnOk result (string_bytes out.new ≡ string_bytes out.old ++ spaced numbers.now) }
{
    for number in numbers {
        write!(out, " {number}")?;
    }
    Ok(())
}

/// Appends these jobs, which nobody has claimed.
fn push_listed_words(out: &mut String, version: u32, unclaimed: &[u32]) -> Result<(), AllocError>
    ensures { OnOk result (string_bytes out.new ≡ string_bytes out.old ++ listed_words version unclaimed.now) }
{
    out.push_str(list_start(version))?;
    push_spaced(out, unclaimed)
}

/// Appends how many jobs nobody has claimed.
#[tactic(auto, unfolding(crate::specs::Frame::counted_words))]
fn push_counted_words(out: &mut String, version: u32, count: usize) -> Result<(), AllocError>
    ensures { OnOk result (string_bytes out.new ≡ string_bytes out.old ++ counted_words version count) }
{
    write!(out, "unclaimed {count} ")?;
    out.push_str(jobs_word(version))
}

/// Appends these jobs, which nobody has claimed, or their number.
#[tactic(auto, unfolding(crate::specs::Frame::unclaimed_words))]
fn push_unclaimed_words(out: &mut String, version: u32, unclaimed: &[u32]) -> Result<(), AllocError>
    ensures { OnOk result (string_bytes out.new ≡ string_bytes out.old ++ unclaimed_words version unclaimed.now) }
{
    if unclaimed.len() == 0 {
        out.push_str("unclaimed none")
    } else if unclaimed.len() <= MOST_LISTED {
        push_listed_words(out, version, unclaimed)
    } else {
        push_counted_words(out, version, unclaimed.len())
    }
}

/// Appends the report's words on the run, without its history and its results.
#[tactic(auto, unfolding(crate::specs::Frame::heading))]
fn push_heading(alloc: Global, out: &mut String, scene: &Scene<'_>) -> Result<(), AllocError>
    requires { scene.now.world.now.givens ≡ scene.now.plan.now.heads.givens }
    ensures { OnOk result (string_bytes out.new ≡ string_bytes out.old ++ heading (plan_seen scene.now.plan.now) scene.now.world.now.world) }
{
    runs_are_short();
    let heads = &scene.plan.heads;
    let history = scene.world.history();
    let turns = all_turns(alloc, scene.world)?;
    push_first_line(out, heads)?;
    push_workers(out, history, &turns)?;
    push_performed(out, heads, history)
}

/// Appends the title of a picture, and the description for a reader that doesn't see it.
#[tactic(auto, unfolding(crate::specs::Frame::description))]
fn push_description(alloc: Global, out: &mut String, scene: &Scene<'_>) -> Result<(), AllocError>
    requires { scene.now.world.now.givens ≡ scene.now.plan.now.heads.givens }
    ensures { OnOk result (string_bytes out.new ≡ string_bytes out.old ++ description (plan_seen scene.now.plan.now) scene.now.world.now.world scene.now.unclaimed.now) }
{
    out.push_str(fixed_text(Wording::Title))?;
    push_heading(alloc, out, scene)?;
    push_unclaimed_words(out, scene.plan.heads.version, scene.unclaimed)?;
    out.push_str(fixed_text(Wording::More))
}

/// Appends the end of the ground.
#[tactic(auto, unfolding(crate::specs::Frame::ground_end))]
fn push_ground_end(out: &mut String, width: u128, height: u128) -> Result<(), AllocError>
    ensures { OnOk result (string_bytes out.new ≡ string_bytes out.old ++ ground_end width height) }
{
    write!(out, "v{height}")?;
    write!(out, "h-{width}z\"/>\n")
}

/// Appends the ground, which fills the picture.
#[tactic(auto, unfolding(crate::specs::Frame::ground))]
fn push_ground(out: &mut String, width: u128, height: u128) -> Result<(), AllocError>
    ensures { OnOk result (string_bytes out.new ≡ string_bytes out.old ++ ground width height) }
{
    push_area_start(out, "g")?;
    write!(out, "M0 0h{width}")?;
    push_ground_end(out, width, height)
}

/// Appends the words of the report's first line.
#[tactic(auto, unfolding(crate::specs::Frame::first_text))]
fn push_first_text(out: &mut String, plan: &Plan) -> Result<(), AllocError>
    ensures { OnOk result (string_bytes out.new ≡ string_bytes out.old ++ first_text (plan_seen plan.now)) }
{
    push_text_start(out, "i", 16, 24)?;
    push_first_words(out, &plan.heads)?;
    out.push_str("</text>\n")
}

/// Appends what stands above the lanes of a picture of this width and height.
#[tactic(auto, unfolding(crate::specs::Frame::head))]
pub(crate) fn push_head(
    alloc: Global,
    out: &mut String,
    scene: &Scene<'_>,
    width: u128,
    height: u128,
) -> Result<(), AllocError>
    requires { scene.now.world.now.givens ≡ scene.now.plan.now.heads.givens }
    ensures { OnOk result (string_bytes out.new ≡ string_bytes out.old ++ head (plan_seen scene.now.plan.now) scene.now.world.now.world scene.now.unclaimed.now width height) }
{
    push_svg_start(out, width, height)?;
    push_description(alloc, out, scene)?;
    out.push_str(fixed_text(Wording::LightStyle))?;
    out.push_str(fixed_text(Wording::DarkStyle))?;
    push_ground(out, width, height)?;
    push_first_text(out, scene.plan)
}

/// Appends the performed jobs, at this height.
#[tactic(auto, unfolding(crate::specs::Frame::performed_text))]
fn push_performed_text(out: &mut String, scene: &Scene<'_>, y: u128) -> Result<(), AllocError>
    ensures { OnOk result (string_bytes out.new ≡ string_bytes out.old ++ performed_text (plan_seen scene.now.plan.now) scene.now.world.now.world y) }
{
    runs_are_short();
    push_text_start(out, "i", 16, y)?;
    push_performed_words(out, &scene.plan.heads, scene.world.history())?;
    out.push_str("</text>\n")
}

/// Appends these jobs, which nobody has claimed, or their number, at this height.
#[tactic(auto, unfolding(crate::specs::Frame::unclaimed_text))]
fn push_unclaimed_text(
    out: &mut String,
    version: u32,
    unclaimed: &[u32],
    y: u128,
) -> Result<(), AllocError>
    ensures { OnOk result (string_bytes out.new ≡ string_bytes out.old ++ unclaimed_text version unclaimed.now y) }
{
    push_text_start(out, "i", 16, y)?;
    push_unclaimed_words(out, version, unclaimed)?;
    out.push_str("</text>\n")
}

/// Appends the results of the run, at this height.
#[tactic(auto, unfolding(crate::specs::Frame::foot))]
pub(crate) fn push_foot(out: &mut String, scene: &Scene<'_>, y: u128) -> Result<(), AllocError>
    requires { y < 2 ^ 100 }
    ensures { OnOk result (string_bytes out.new ≡ string_bytes out.old ++ foot (plan_seen scene.now.plan.now) scene.now.world.now.world scene.now.unclaimed.now y) }
{
    push_performed_text(out, scene, y)?;
    push_unclaimed_text(out, scene.plan.heads.version, scene.unclaimed, y + 16)
}

/// Appends the words of the marks, in these lines below this height, and the end of the picture.
pub(crate) fn push_key(out: &mut String, y: u128, lines: &[Wording]) -> Result<(), AllocError>
    requires { y < 2 ^ 100 }
    ensures { OnOk result (string_bytes out.new ≡ string_bytes out.old ++ key y lines.now) }
{
    for (i, line) in lines.iter().enumerate() {
        push_text(out, "f", 16, y + 44 + 16 * i as u128, fixed_text(*line))?;
    }
    out.push_str("</svg>\n")
}
