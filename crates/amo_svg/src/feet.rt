//! Writes what stands below the lanes of a picture of rows.
ghost use Rattle.std.specs.Prelude.{◌≡◌, ◌++◌, ◌<◌, ◌^◌, OnOk, string_bytes};
ghost use Rattle.amo_params.specs.Givens.{IsWorker};
ghost use Rattle.amo_svg.specs.Feet.{state_text, counts_words, counts_text, lane_foot, lane_feet};

use crate::elements::push_text_start;
use crate::marks::lane;
use amo_kk::Event;
use amo_render::{claims_of, dones_of, state_of};
use amo_world::World;
use std::alloc::AllocError;

/// Appends how a worker went.
#[tactic(auto, unfolding(crate::specs::Feet::state_text))]
fn push_state_text(
    out: &mut String,
    history: &[Event],
    y: u128,
    worker: u32,
    turns: u64,
) -> Result<(), AllocError>
    requires { y < 2 ^ 100 }
    ensures { OnOk result (string_bytes out.new ≡ string_bytes out.old ++ state_text history.now y worker turns) }
{
    push_text_start(out, "i", lane(worker).saturating_sub(20), y + 14)?;
    out.push_str(state_of(worker as usize, history))?;
    write!(out, " turns {turns}</text>\n")
}

/// Appends how many jobs a worker has claimed and done.
#[tactic(auto, unfolding(crate::specs::Feet::counts_words))]
fn push_counts_words(out: &mut String, history: &[Event], worker: u32) -> Result<(), AllocError>
    ensures { OnOk result (string_bytes out.new ≡ string_bytes out.old ++ counts_words history.now worker) }
{
    let claims = claims_of(worker as usize, history);
    let dones = dones_of(worker as usize, history);
    write!(out, "claimed {claims}")?;
    write!(out, " done {dones}")
}

/// Appends at its place how many jobs a worker has claimed and done.
#[tactic(auto, unfolding(crate::specs::Feet::counts_text))]
fn push_counts_text(
    out: &mut String,
    history: &[Event],
    y: u128,
    worker: u32,
) -> Result<(), AllocError>
    requires { y < 2 ^ 100 }
    ensures { OnOk result (string_bytes out.new ≡ string_bytes out.old ++ counts_text history.now y worker) }
{
    push_text_start(out, "i", lane(worker).saturating_sub(20), y + 30)?;
    push_counts_words(out, history, worker)?;
    out.push_str("</text>\n")
}

/// Appends the foot of a worker's lane.
#[tactic(auto, unfolding(crate::specs::Feet::lane_foot))]
fn push_lane_foot(out: &mut String, world: &World, y: u128, worker: u32) -> Result<(), AllocError>
    requires near { y < 2 ^ 100 }
    requires worker { IsWorker world.now.givens worker }
    ensures { OnOk result (string_bytes out.new ≡ string_bytes out.old ++ lane_foot world.now.world y worker) }
{
    let history = world.history();
    push_state_text(out, history, y, worker, world.turns_of(worker))?;
    push_counts_text(out, history, y, worker)
}

/// Appends the foot of each worker's lane, below this height.
pub(crate) fn push_lane_feet(out: &mut String, world: &World, y: u128) -> Result<(), AllocError>
    requires { y < 2 ^ 100 }
    ensures { OnOk result (string_bytes out.new ≡ string_bytes out.old ++ lane_feet world.now.world y world.now.givens.workers) }
{
    for before in 0..world.givens().workers {
        push_lane_foot(out, world, y, before + 1)?;
    }
    Ok(())
}
