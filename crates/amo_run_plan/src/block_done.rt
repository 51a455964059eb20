//! The outputs that show that a block is done.
ghost use Rattle.std.specs.Prelude.{◌≡◌, ◌≤◌, ◌<◌, ◌^◌, ◌==◌, ◌&&◌, ℕ, None, Some, true, IfOk, length, replicate, sum_by};
ghost use Rattle.std.proofs.Common.{Vec, Global};
ghost use Rattle.std.specs.List.{AllZip};
ghost use Rattle.amo_sets.specs.Lists.{numbered, put};
ghost use Rattle.amo_run_plan.specs.Became.{listed, lists_block};
ghost use Rattle.amo_render.specs.Results.{jobs_in_block};
ghost use Rattle.amo_run_plan.specs.Noted.{IsSetOf, is_in, kept, noted_with, IsNoted, filed_blocks};

use amo_crew::Output;
use amo_plan::Answer;
use amo_render::jobs_in_block;
use amo_sets::JobSet;
use std::alloc::{AllocError, Global};

/// An output that says of its block that it is done: its worker, and its place among all outputs.
#[derive(Clone, Copy)]
pub(crate) struct BlockDone {
    pub(crate) worker: u32,
    pub(crate) place: usize,
}

/// Adds a number to a set, if it is one of those that the set may have.
fn add(set: &mut JobSet, job: u32)
    ensures { set.new ≡ put set.old job true }
{
    if set.covers(job) {
        set.add(job);
    }
}

/// Returns the numbers of `1..=jobs` that a list has, as a set.
#[tactic(auto, using(amo_render::proofs::Marks::marked_more))]
fn set_of(alloc: Global, jobs: u32, list: &[u32]) -> Result<JobSet, AllocError>
    ensures { IfOk result (IsSetOf jobs list.now) }
{
    let mut set = JobSet::empty(alloc, jobs)?;
    for job in list {
        add(&mut set, *job);
    }
    Ok(set)
}

/// Each list as a set.
fn sets_of(alloc: Global, jobs: u32, lists: &[Vec<u32>]) -> Result<Vec<JobSet>, AllocError>
    ensures { IfOk result (λ s. AllZip (λ (v : Vec ℕ Global). IsSetOf jobs v.items) lists.now s.items) }
{
    let mut sets = Vec::new(alloc);
    for list in lists {
        sets.push(set_of(alloc, jobs, list)?)?;
    }
    Ok(sets)
}

/// Returns true if the set with this number, from 1, has the job.
fn is_in(sets: &[JobSet], number: u32, job: u32) -> bool
    ensures { result ≡ is_in sets.now number job }
{
    if number == 0 {
        return false;
    }
    match sets.get(number as usize - 1) {
        Some(set) => set.covers(job) && set.has(job),
        None => false,
    }
}

/// Returns the output that stays noted: the earlier, unless the later is of a lesser worker.
fn kept(earlier: Option<BlockDone>, later: BlockDone) -> BlockDone
    ensures { result ≡ kept earlier later }
{
    match earlier {
        Some(earlier) if earlier.worker <= later.worker => earlier,
        _ => later,
    }
}

/// Notes an output at its job, unless there is no such job, or an output of the same or of a lesser
/// worker is noted.
fn note(filed: &mut [Option<BlockDone>], job: u32, output: BlockDone)
    ensures { filed.new ≡ put filed.old job (Some (kept (numbered None filed.old job) output)) }
{
    if 1 <= job && job as usize <= filed.len() {
        let place = job as usize - 1;
        filed[place] = Some(kept(filed[place], output));
    }
}

/// Notes the output at a place, if the set of its worker has its job.
#[tactic(auto, using(crate::proofs::Noting::put_noted, crate::proofs::Noting::not_noted))]
fn note_output(
    filed: &mut [Option<BlockDone>],
    sets: &[JobSet],
    place: usize,
    output: &Output<Vec<Answer>>,
)
    ensures len { length filed.new ≡ length filed.old }
    ensures noted { (b : ℕ) → 1 ≤ b → b ≤ length filed.old → numbered None filed.new b
        ≡ noted_with (output.now.job == b && is_in sets.now output.now.worker b) (numbered None filed.old b) (record { worker = output.now.worker; place = place }) }
{
    let worker = output.worker;
    if is_in(sets, worker, output.job) {
        note(filed, output.job, BlockDone { worker, place });
    }
}

/// Notes of each block the first output of the least worker that has it in its set.
fn note_outputs(filed: &mut [Option<BlockDone>], sets: &[JobSet], outputs: &[Output<Vec<Answer>>])
    requires { filed.old ≡ replicate (length filed.old) None }
    ensures len { length filed.new ≡ length filed.old }
    ensures noted { (b : ℕ) → 1 ≤ b → b ≤ length filed.old → IsNoted (is_in sets.now) outputs.now b (numbered None filed.new b) }
{
    for (place, output) in outputs.iter().enumerate() {
        note_output(filed, sets, place, output);
    }
}

/// Notes of each of so many blocks the first output of the least worker that has it in its list.
pub(crate) fn filed_of(
    alloc: Global,
    jobs: u32,
    dones: &[Vec<u32>],
    outputs: &[Output<Vec<Answer>>],
) -> Result<Vec<Option<BlockDone>>, AllocError>
    ensures len { IfOk result (λ v. length v.items ≡ jobs) }
    ensures noted { IfOk result (λ v. (b : ℕ) → 1 ≤ b → b ≤ jobs
        → IsNoted (lists_block (listed dones.now)) outputs.now b (numbered None v.items b)) }
{
    let sets = sets_of(alloc, jobs, dones)?;
    let mut filed = vec![in alloc; None; jobs as usize]?;
    note_outputs(&mut filed, &sets, outputs);
    Ok(filed)
}

/// Of how many blocks an output is noted.
pub(crate) fn count_filed(filed: &[Option<BlockDone>]) -> usize
    ensures { result ≡ length (filed_blocks filed.now (length filed.now)) }
{
    let mut count = 0;
    for noted in filed {
        if let Some(_) = noted {
            count += 1;
        }
    }
    count
}

/// Returns how many jobs these blocks have.
pub(crate) fn count_filed_jobs(filed: &[Option<BlockDone>], block: u32, jobs: usize) -> u64
    requires { length filed.now < 2 ^ 32 }
    ensures { result ≡ sum_by (jobs_in_block block jobs) (filed_blocks filed.now (length filed.now)) }
{
    let mut count = 0;
    for (i, noted) in filed.iter().enumerate() {
        if let Some(_) = noted {
            count += jobs_in_block(block, jobs, i as u32 + 1);
        }
    }
    count
}
