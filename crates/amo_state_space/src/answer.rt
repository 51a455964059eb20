//! The text on a plan.
ghost use Rattle.std.specs.Prelude.{◌≡◌, ◌++◌, ◌≤◌, OnOk, IfOk, string_bytes};
ghost use Rattle.amo_params.specs.declared.limits.TheConstants.{MAX_WORKERS};
ghost use Rattle.amo_render.specs.Numbers.{spaced};
ghost use Rattle.amo_state_space.specs.Answer.{IsAllOf, found_text, most_jobs, too_many, turn_words, unit_word};

use crate::longest::{Found, find};
use amo_params::Givens;
use amo_render::{BytesText, ReplayFault, plan_of_bytes};
use amo_worst_case::{fewest, worst_schedule};
use std::alloc::{AllocError, Global};

/// The most jobs with one worker whose worlds are looked through; with each worker more they are
/// half as many.
pub const MOST_ALONE: u32 = 16;

/// Returns the most jobs with so many workers whose worlds are looked through.
fn most_jobs(workers: u32) -> u32
    requires some { 1 ≤ workers }
    requires few { workers ≤ MAX_WORKERS }
    ensures { result ≡ most_jobs workers }
{
    MOST_ALONE >> (workers - 1)
}

/// Appends each of these numbers after a space.
fn push_spaced(out: &mut String, numbers: &[u32]) -> Result<(), AllocError>
    ensures { OnOk result (string_bytes out.new ≡ string_bytes out.old ++ spaced numbers.now) }
{
    for number in numbers {
        write!(out, " {number}")?;
    }
    Ok(())
}

/// Returns a turn of each of these workers, in the words of a plan.
fn turn_words(alloc: Global, turns: &[u32]) -> Result<String, AllocError>
    ensures { IfOk result (λ s. string_bytes s ≡ turn_words turns.now) }
{
    let mut out = String::new(alloc);
    if let Some((first, others)) = turns.split_first() {
        write!(out, "{first}")?;
        push_spaced(&mut out, others)?;
    }
    Ok(out)
}

/// Returns the word for the jobs of the givens.
#[tactic(auto, unfolding(crate::specs::Answer::unit_word))]
fn unit_word(version: u32) -> &'static str
    ensures { result.now ≡ unit_word version }
{
    if version == 1 { "jobs" } else { "blocks" }
}

/// Appends the text for too many jobs.
#[tactic(auto, unfolding(crate::specs::Answer::too_many))]
fn push_too_many(out: &mut String, version: u32, givens: Givens) -> Result<(), AllocError>
    ensures { OnOk result (string_bytes out.new ≡ string_bytes out.old ++ too_many version givens) }
{
    let workers = givens.workers;
    let most = most_jobs(workers);
    let unit = unit_word(version);
    let jobs = givens.jobs;
    writeln!(
        out,
        "refused\nwith {workers} workers at most {most} {unit} are looked through, and the plan has {jobs}"
    )
}

/// Appends the results of the search.
#[tactic(auto, unfolding(crate::specs::Answer::found_text))]
fn push_found(
    alloc: Global,
    out: &mut String,
    givens: Givens,
    found: &Found,
) -> Result<(), AllocError>
    ensures { OnOk result (string_bytes out.new ≡ string_bytes out.old ++ found_text givens found.now.worlds found.now.turns.items) }
{
    let worlds = found.worlds;
    let least = fewest(givens);
    let worst = worst_schedule(alloc, givens)?;
    let turns = found.turns.as_slice();
    let longest = turns.len();
    let words = turn_words(alloc, turns)?;
    writeln!(
        out,
        "worlds {worlds}\nleast {least}\nschedule = \"{worst}\"\nlongest {longest}\nschedule = \"{words}\""
    )
}

/// Returns the text on the plans of a version with these givens. The jobs, or in version 2 the
/// blocks, may be at most 16 with one worker, 8 with two, 4 with three, and so on. If they are, the
/// text has three parts.
///
/// - The number of worlds that turns in any order lead to, with stops of at most all workers but
///   one.
/// - The fewest jobs that are performed once all workers are gone, with a schedule after which no
///   more are.
/// - The most turns of a run, with the schedule of such a run.
///
/// Otherwise it has a line that says `refused`, and one with the reason.
///
/// # Errors
///
/// `AllocError` if there was no memory.
pub fn all_text(alloc: Global, version: u32, givens: Givens) -> Result<String, AllocError>
    ensures { IfOk result (λ s. IsAllOf version givens (string_bytes s)) }
{
    let mut out = String::new(alloc);
    if most_jobs(givens.workers) < givens.jobs {
        push_too_many(&mut out, version, givens)?;
        return Ok(out);
    }
    let found = find(alloc, givens)?;
    push_found(alloc, &mut out, givens, &found)?;
    Ok(out)
}

/// The text on the plan that the bytes are.
#[derive(Clone, Copy, Debug, PartialEq, Eq)]
pub struct AllWorlds;

impl BytesText for AllWorlds {
    ghost use Rattle.amo_state_space.specs.Answer.{AreNoPlan, IsAllOfBytes};

    ghost is_of = { λ _. IsAllOfBytes };

    ghost is_refused = { λ _. AreNoPlan };

    /// Returns the text, which depends only on the version and the givens of the plan.
    ///
    /// # Errors
    ///
    /// `Plan(f)` exactly if the bytes are not a plan, for the fault f. `NoMemory` if there was no
    /// memory.
    fn make(&self, alloc: Global, bytes: &[u8]) -> Result<String, ReplayFault> {
        let plan = plan_of_bytes(alloc, bytes)?;
        Ok(all_text(alloc, plan.heads.version, plan.heads.givens)?)
    }
}
