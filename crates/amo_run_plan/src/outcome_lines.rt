//! Writes how each worker of a run went, and what became of each job.
ghost use Rattle.std.specs.Prelude.{◌≡◌, ◌++◌, ◌+◌, ◌<◌, ◌≤◌, ◌^◌, None, OnOk, string_bytes, length, slice_get, get_or};
ghost use Rattle.amo_run_plan.specs.Became.{listed, Fate};
ghost use Rattle.amo_render.specs.Escaped.{escaped};
ghost use Rattle.amo_run_plan.specs.OutcomeLines.{end_word, end_steps, end_line, end_lines, answer_text, text_in, done_line, claimed_line, free_line, fate_line, job_line, job_lines};
ghost use Rattle.amo_run_plan.specs.Noted.{noted_fate};

use crate::block_done::BlockDone;
use amo_crew::{End, Output};
use amo_plan::{Answer, Text};
use amo_render::push_escaped;
use std::alloc::{AllocError, Global};

/// Returns how a worker went, in one word.
fn end_word(end: End) -> &'static str
    ensures { result.now ≡ end_word end }
{
    match end {
        End::Ended(_) => "ended",
        End::Halted(_) => "halted",
        End::NotStarted => "refused",
    }
}

/// Returns how many steps it took.
fn end_steps(end: End) -> u64
    ensures { result ≡ end_steps end }
{
    match end {
        End::Ended(steps) => steps,
        End::Halted(steps) => steps,
        End::NotStarted => 0,
    }
}

/// Appends the line of a worker whose lists have so many blocks.
#[tactic(auto, unfolding(crate::specs::OutcomeLines::end_line))]
fn push_end(
    out: &mut String,
    worker: usize,
    end: End,
    claims: usize,
    dones: usize,
) -> Result<(), AllocError>
    ensures { OnOk result (string_bytes out.new ≡ string_bytes out.old ++ end_line worker end claims dones) }
{
    let word = end_word(end);
    let steps = end_steps(end);
    write!(out, "worker {worker} {word} steps {steps}")?;
    writeln!(out, " claimed {claims} done {dones}")
}

/// Appends a line for each worker, given the lists of each.
pub(crate) fn push_ends(
    out: &mut String,
    ends: &[End],
    claims: &[Vec<u32>],
    dones: &[Vec<u32>],
) -> Result<(), AllocError>
    requires claims { length claims.now ≡ length ends.now }
    requires dones { length dones.now ≡ length ends.now }
    ensures { OnOk result (string_bytes out.new ≡ string_bytes out.old ++ end_lines 1 ends.now (listed claims.now) (listed dones.now)) }
{
    for (i, end) in ends.iter().enumerate() {
        push_end(out, i + 1, *end, claims[i].len(), dones[i].len())?;
    }
    Ok(())
}

/// Appends an answer as it is printed.
fn push_answer(alloc: Global, out: &mut String, answer: &Answer) -> Result<(), AllocError>
    ensures { OnOk result (string_bytes out.new ≡ string_bytes out.old ++ escaped (answer_text answer.now)) }
{
    match answer {
        Answer::Text(text) => push_escaped(out, text.as_str().as_bytes()),
        Answer::Number(number) => {
            let digits = number.to_string(alloc)?;
            push_escaped(out, digits.as_bytes())
        }
    }
}

/// Appends the answer at a place of an output as it is printed.
fn push_text(
    alloc: Global,
    out: &mut String,
    outputs: &[Output<Vec<Answer>>],
    at: usize,
    place: usize,
) -> Result<(), AllocError>
    ensures { OnOk result (string_bytes out.new ≡ string_bytes out.old ++ escaped (text_in place (slice_get outputs.now at))) }
{
    match outputs.get(at) {
        Some(output) => match output.out.get(place) {
            Some(answer) => push_answer(alloc, out, answer),
            None => Ok(()),
        },
        None => Ok(()),
    }
}

/// Appends the line of a job whose block is done.
#[tactic(auto, unfolding(crate::specs::OutcomeLines::done_line))]
fn push_done(
    alloc: Global,
    out: &mut String,
    outputs: &[Output<Vec<Answer>>],
    filed: BlockDone,
    job: usize,
    place: usize,
    name: &str,
) -> Result<(), AllocError>
    ensures { OnOk result (string_bytes out.new ≡ string_bytes out.old ++ done_line job filed.worker name.now (text_in place (slice_get outputs.now filed.place))) }
{
    let worker = filed.worker;
    write!(out, "job {job} done {worker} {name} ")?;
    push_text(alloc, out, outputs, filed.place, place)?;
    writeln!(out)
}

/// Appends the line of a job whose block is claimed and not done.
#[tactic(auto, unfolding(crate::specs::OutcomeLines::claimed_line))]
fn push_claimed(out: &mut String, worker: u32, job: usize, name: &str) -> Result<(), AllocError>
    ensures { OnOk result (string_bytes out.new ≡ string_bytes out.old ++ claimed_line job worker name.now) }
{
    writeln!(out, "job {job} claimed {worker} {name}")
}

/// Appends the line of a job whose block nobody has claimed.
#[tactic(auto, unfolding(crate::specs::OutcomeLines::free_line))]
fn push_free(out: &mut String, job: usize, name: &str) -> Result<(), AllocError>
    ensures { OnOk result (string_bytes out.new ≡ string_bytes out.old ++ free_line job name.now) }
{
    writeln!(out, "job {job} free {name}")
}

/// Returns the note at a place, if there is one.
fn noted<T: Copy>(items: &[Option<T>], place: usize) -> Option<T>
    ensures { result ≡ get_or items.now place None }
{
    match items.get(place) {
        Some(item) => *item,
        None => None,
    }
}

/// The notes on the blocks of an outcome: for each the output that shows that it is done, and the
/// worker that has claimed it.
#[derive(Drop)]
pub(crate) struct Notes<'a> {
    pub(crate) outputs: &'a [Output<Vec<Answer>>],
    pub(crate) filed: Vec<Option<BlockDone>>,
    pub(crate) claimers: Vec<Option<u32>>,
}

/// Appends the line of a job, given its number from 0.
fn push_job(
    alloc: Global,
    out: &mut String,
    notes: &Notes<'_>,
    block: u32,
    before: usize,
    name: &str,
) -> Result<(), AllocError>
    requires some { 1 ≤ block }
    requires few { before + 1 < 2 ^ 64 }
    ensures { OnOk result (string_bytes out.new ≡ string_bytes out.old
        ++ job_line (noted_fate notes.now.outputs.now notes.now.filed.items notes.now.claimers.items) block (before + 1) name.now) }
{
    let number = before / block as usize;
    let place = before % block as usize;
    if let Some(filed) = noted(&notes.filed, number) {
        return push_done(alloc, out, notes.outputs, filed, before + 1, place, name);
    }
    match noted(&notes.claimers, number) {
        Some(worker) => push_claimed(out, worker, before + 1, name),
        None => push_free(out, before + 1, name),
    }
}

/// Appends a line for each job.
pub(crate) fn push_jobs(
    alloc: Global,
    out: &mut String,
    notes: &Notes<'_>,
    block: u32,
    names: &[Text],
) -> Result<(), AllocError>
    requires { 1 ≤ block }
    ensures { OnOk result (string_bytes out.new ≡ string_bytes out.old
        ++ job_lines (noted_fate notes.now.outputs.now notes.now.filed.items notes.now.claimers.items) block 1 names.now) }
{
    for (i, name) in names.iter().enumerate() {
        push_job(alloc, out, notes, block, i, name.as_str())?;
    }
    Ok(())
}
