//! Writes how much was performed.
ghost use Rattle.std.specs.Prelude.{◌≡◌, ◌++◌, ◌<◌, ◌≤◌, ◌^◌, OnOk, string_bytes, length, sum_by};
ghost use Rattle.amo_kk.specs.Run.{done_jobs};
ghost use Rattle.amo_render.specs.Results.{jobs_in_block};
ghost use Rattle.amo_render.specs.Tallies.{jobs_words, blocks_words, tally_words, tally_line, performed_words, performed_line};

use crate::counting::count_performances;
use amo_kk::Event;
use amo_plan::Heads;
use std::alloc::AllocError;

/// Returns how many jobs the block with this number has, of so many jobs.
pub fn jobs_in_block(block: u32, jobs: usize, number: u32) -> u64
    ensures value { result ≡ jobs_in_block block jobs number }
    ensures few { result ≤ block }
{
    let before = (number as u64).saturating_sub(1) * block as u64;
    (block as u64).min((jobs as u64).saturating_sub(before))
}

/// Returns how many jobs the performed blocks have.
fn count_jobs(block: u32, jobs: usize, history: &[Event]) -> u64
    requires { length history.now < 2 ^ 32 }
    ensures { result ≡ sum_by (jobs_in_block block jobs) (done_jobs history.now) }
{
    let mut count = 0;
    for event in history {
        if let Event::Done(_, number) = event {
            count += jobs_in_block(block, jobs, *number);
        }
    }
    count
}

/// Appends how many jobs were performed.
#[tactic(auto, unfolding(crate::specs::Tallies::jobs_words))]
fn push_jobs(out: &mut String, dones: usize) -> Result<(), AllocError>
    ensures { OnOk result (string_bytes out.new ≡ string_bytes out.old ++ jobs_words dones) }
{
    write!(out, "performed {dones}")
}

/// Appends how many blocks were performed, and how many jobs stand in them.
#[tactic(auto, unfolding(crate::specs::Tallies::blocks_words))]
fn push_blocks(out: &mut String, dones: usize, jobs: u64) -> Result<(), AllocError>
    ensures { OnOk result (string_bytes out.new ≡ string_bytes out.old ++ blocks_words dones jobs) }
{
    write!(out, "performed blocks {dones} jobs {jobs}")
}

/// Appends the counts of performances: so many blocks, with so many jobs.
#[tactic(auto, unfolding(crate::specs::Tallies::tally_words))]
fn push_tally_words(
    out: &mut String,
    version: u32,
    dones: usize,
    jobs: u64,
) -> Result<(), AllocError>
    ensures { OnOk result (string_bytes out.new ≡ string_bytes out.old ++ tally_words version dones jobs) }
{
    if version == 1 {
        push_jobs(out, dones)
    } else {
        push_blocks(out, dones, jobs)
    }
}

/// Appends the line of the performed jobs.
///
/// # Errors
///
/// `AllocError` if there was no memory.
#[tactic(auto, unfolding(crate::specs::Tallies::tally_line))]
pub fn push_tally(out: &mut String, version: u32, dones: usize, jobs: u64) -> Result<(), AllocError>
    ensures { OnOk result (string_bytes out.new ≡ string_bytes out.old ++ tally_line version dones jobs) }
{
    push_tally_words(out, version, dones, jobs)?;
    out.push_str("\n")
}

/// Appends the counts of a history's performances.
///
/// # Errors
///
/// `AllocError` if there was no memory. The text may have any content then, and the caller must
/// drop it.
pub fn push_performed_words(
    out: &mut String,
    heads: &Heads,
    history: &[Event],
) -> Result<(), AllocError>
    requires { length history.now < 2 ^ 32 }
    ensures { OnOk result (string_bytes out.new ≡ string_bytes out.old ++ performed_words heads.now.version heads.now.block (length heads.now.names) (done_jobs history.now)) }
{
    let dones = count_performances(history);
    let done_jobs = count_jobs(heads.block, heads.names.as_slice().len(), history);
    push_tally_words(out, heads.version, dones, done_jobs)
}

/// Appends the line of a history's performances.
///
/// # Errors
///
/// `AllocError` if there was no memory. The text may have any content then, and the caller must
/// drop it.
#[tactic(auto, unfolding(crate::specs::Tallies::tally_line))]
pub fn push_performed(out: &mut String, heads: &Heads, history: &[Event]) -> Result<(), AllocError>
    requires { length history.now < 2 ^ 32 }
    ensures { OnOk result (string_bytes out.new ≡ string_bytes out.old ++ performed_line heads.now.version heads.now.block (length heads.now.names) (done_jobs history.now)) }
{
    push_performed_words(out, heads, history)?;
    out.push_str("\n")
}
