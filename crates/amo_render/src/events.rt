//! Writes the lines of a history and of its workers.
ghost use Rattle.std.specs.Prelude.{◌≡◌, ◌++◌, OnOk, string_bytes, count_by};
ghost use Rattle.amo_render.specs.Happened.{is_claim_of, is_done_of, state_of};
ghost use Rattle.amo_render.specs.EventLines.{event_line, event_lines, worker_line, worker_lines};

use amo_kk::Event;
use std::alloc::AllocError;

/// Appends the line of an event.
#[tactic(auto, unfolding(crate::specs::EventLines::event_line))]
fn push_event(out: &mut String, number: usize, event: Event) -> Result<(), AllocError>
    ensures { OnOk result (string_bytes out.new ≡ string_bytes out.old ++ event_line number event) }
{
    match event {
        Event::Claimed(worker, job) => writeln!(out, "{number} claimed {worker} {job}"),
        Event::Done(worker, job) => writeln!(out, "{number} done {worker} {job}"),
        Event::Ended(worker) => writeln!(out, "{number} ended {worker}"),
        Event::Halted(worker) => writeln!(out, "{number} halted {worker}"),
        Event::Left(worker) => writeln!(out, "{number} left {worker}"),
    }
}

/// Appends a line for each event, numbered from 1.
///
/// # Errors
///
/// `AllocError` if there was no memory.
pub fn push_events(out: &mut String, history: &[Event]) -> Result<(), AllocError>
    ensures { OnOk result (string_bytes out.new ≡ string_bytes out.old ++ event_lines 1 history.now) }
{
    for (i, event) in history.iter().enumerate() {
        push_event(out, i + 1, *event)?;
    }
    Ok(())
}

/// Returns how a worker went, in one word.
pub fn state_of(worker: usize, history: &[Event]) -> &'static str
    ensures { result.now ≡ state_of worker history.now }
{
    for event in history {
        match event {
            Event::Ended(p) if *p as usize == worker => return "ended",
            Event::Halted(p) if *p as usize == worker => return "halted",
            Event::Left(p) if *p as usize == worker => return "left",
            _ => {}
        }
    }
    "running"
}

/// Returns true if the event is a claim of the worker.
fn is_claim_of(worker: usize, event: &Event) -> bool
    ensures { result ≡ is_claim_of worker event.now }
{
    match event {
        Event::Claimed(p, _) => *p as usize == worker,
        _ => false,
    }
}

/// Returns true if the event is a performance of the worker.
fn is_done_of(worker: usize, event: &Event) -> bool
    ensures { result ≡ is_done_of worker event.now }
{
    match event {
        Event::Done(p, _) => *p as usize == worker,
        _ => false,
    }
}

/// Returns how many claims of the worker the history has.
pub fn claims_of(worker: usize, history: &[Event]) -> usize
    ensures { result ≡ count_by (is_claim_of worker) history.now }
{
    history
        .iter()
        .filter(|event| is_claim_of(worker, event))
        .count()
}

/// Returns how many performances of the worker the history has.
pub fn dones_of(worker: usize, history: &[Event]) -> usize
    ensures { result ≡ count_by (is_done_of worker) history.now }
{
    history
        .iter()
        .filter(|event| is_done_of(worker, event))
        .count()
}

/// Appends the line of a worker that has had so many turns.
#[tactic(auto, unfolding(crate::specs::EventLines::worker_line))]
fn push_worker(
    out: &mut String,
    history: &[Event],
    worker: usize,
    turns: u64,
) -> Result<(), AllocError>
    ensures { OnOk result (string_bytes out.new ≡ string_bytes out.old ++ worker_line history.now worker turns) }
{
    let state = state_of(worker, history);
    let claims = claims_of(worker, history);
    let dones = dones_of(worker, history);
    write!(out, "worker {worker} {state} turns {turns}")?;
    writeln!(out, " claimed {claims} done {dones}")
}

/// Appends a line for each worker with its number of turns.
///
/// # Errors
///
/// `AllocError` if there was no memory. The text may have any content then, and the caller must
/// drop it.
pub fn push_workers(out: &mut String, history: &[Event], turns: &[u64]) -> Result<(), AllocError>
    ensures { OnOk result (string_bytes out.new ≡ string_bytes out.old ++ worker_lines history.now 1 turns.now) }
{
    for (i, turns_of_one) in turns.iter().enumerate() {
        push_worker(out, history, i + 1, *turns_of_one)?;
    }
    Ok(())
}
