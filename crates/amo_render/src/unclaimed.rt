//! Writes the jobs that nobody has claimed.
ghost use Rattle.std.specs.Prelude.{◌≡◌, ◌++◌, ◌≤◌, ℕ, false, true, not, OnOk, IfOk, string_bytes, length, vec_len};
ghost use Rattle.amo_sets.specs.Lists.{numbered, put};
ghost use Rattle.amo_sets.specs.Sets.{has, members};
ghost use Rattle.amo_kk.specs.Run.{claimed_jobs};
ghost use Rattle.amo_render.specs.Numbers.{spaced};
ghost use Rattle.amo_render.specs.Happened.{unclaimed_jobs};
ghost use Rattle.amo_render.specs.Tallies.{unclaimed_line};

use amo_kk::Event;
use std::alloc::{AllocError, Global};

/// Sets the mark of a job, if it has one.
fn set_mark(marks: &mut [bool], job: u32)
    ensures { marks.new ≡ put marks.old job true }
{
    if 1 <= job && job as usize <= marks.len() {
        marks[job as usize - 1] = true;
    }
}

/// Returns a mark for each of so many jobs, set if the history claims it.
#[tactic(auto, using(crate::proofs::Marks::marked_more))]
fn claimed_marks(alloc: Global, jobs: u32, history: &[Event]) -> Result<Vec<bool>, AllocError>
    ensures count { IfOk result (λ v. vec_len v ≡ jobs) }
    ensures marks { IfOk result (λ v. (k : ℕ) → 1 ≤ k → k ≤ jobs → numbered false v.items k ≡ has (claimed_jobs history.now) k) }
{
    let mut marks = vec![in alloc; false; jobs as usize]?;
    for event in history {
        if let Event::Claimed(_, job) = event {
            set_mark(&mut marks, *job);
        }
    }
    Ok(marks)
}

/// Appends the number of each job without a mark, after a space.
fn push_unmarked(out: &mut String, marks: &[bool]) -> Result<(), AllocError>
    ensures { OnOk result (string_bytes out.new ≡ string_bytes out.old ++ spaced (members (length marks.now) (λ k. not (numbered false marks.now k)))) }
{
    for (i, mark) in marks.iter().enumerate() {
        if !*mark {
            let job = i + 1;
            write!(out, " {job}")?;
        }
    }
    Ok(())
}

/// Appends, of so many jobs, the number of each that nobody has claimed, after a space.
fn push_unclaimed_jobs(
    alloc: Global,
    out: &mut String,
    jobs: u32,
    history: &[Event],
) -> Result<(), AllocError>
    ensures { OnOk result (string_bytes out.new ≡ string_bytes out.old ++ spaced (unclaimed_jobs jobs history.now)) }
{
    let marks = claimed_marks(alloc, jobs, history)?;
    push_unmarked(out, &marks)
}

/// Appends the line of the jobs, of so many, that nobody has claimed.
///
/// # Errors
///
/// `AllocError` if there was no memory.
#[tactic(auto, unfolding(crate::specs::Tallies::unclaimed_line))]
pub fn push_unclaimed(
    alloc: Global,
    out: &mut String,
    jobs: u32,
    history: &[Event],
) -> Result<(), AllocError>
    ensures { OnOk result (string_bytes out.new ≡ string_bytes out.old ++ unclaimed_line jobs history.now) }
{
    out.push_str("unclaimed")?;
    push_unclaimed_jobs(alloc, out, jobs, history)?;
    writeln!(out)
}
