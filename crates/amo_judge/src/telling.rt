//! Events in words.
ghost use Rattle.std.specs.Prelude.{◌≡◌, ◌++◌, IfOk, string_bytes};
ghost use Rattle.amo_judge.specs.Telling.{word_for, worker_of, pair_text, lone_text, event_text, count_for, worked_text, went_text, lawful_text};

use crate::history::History;
use amo_kk::Event;
use std::alloc::{AllocError, Global};

/// Returns the word for the kind of event.
fn word_for(event: Event) -> &'static str
    ensures { result.now ≡ word_for event }
{
    match event {
        Event::Claimed(_, _) => "claimed",
        Event::Done(_, _) => "done",
        Event::Ended(_) => "ended",
        Event::Halted(_) => "halted",
        Event::Left(_) => "left",
    }
}

/// Returns the worker of the event.
pub(crate) fn worker_of(event: Event) -> u32
    ensures { result ≡ worker_of event }
{
    match event {
        Event::Claimed(p, _) | Event::Done(p, _) => p,
        Event::Ended(p) | Event::Halted(p) | Event::Left(p) => p,
    }
}

/// Returns the line of an event with this number, worker and job.
#[tactic(auto, unfolding(crate::specs::Telling::pair_text))]
fn pair_text(
    alloc: Global,
    number: u32,
    word: &str,
    worker: &str,
    job: &str,
) -> Result<String, AllocError>
    ensures { IfOk result (λ text. string_bytes text ≡ pair_text number word.now worker.now job.now) }
{
    format!(in alloc; "{number} {word} {worker} {job}")
}

/// Returns the line of an event with this number and worker.
#[tactic(auto, unfolding(crate::specs::Telling::lone_text))]
fn lone_text(alloc: Global, number: u32, word: &str, worker: &str) -> Result<String, AllocError>
    ensures { IfOk result (λ text. string_bytes text ≡ lone_text number word.now worker.now) }
{
    format!(in alloc; "{number} {word} {worker}")
}

/// Returns the line of the event, as it was read.
pub(crate) fn event_text(
    alloc: Global,
    history: &History<'_>,
    number: u32,
    event: Event,
) -> Result<String, AllocError>
    ensures { IfOk result (λ text. string_bytes text ≡ event_text history.now number event) }
{
    let word = word_for(event);
    let worker = history.workers().called(alloc, worker_of(event))?;
    match event {
        Event::Claimed(_, j) | Event::Done(_, j) => {
            let job = history.jobs().called(alloc, j)?;
            pair_text(alloc, number, word, worker.as_str(), job.as_str())
        }
        Event::Ended(_) | Event::Halted(_) | Event::Left(_) => {
            lone_text(alloc, number, word, worker.as_str())
        }
    }
}

/// Returns how many events have this word.
fn count_for(word: &str, events: &[Event]) -> usize
    ensures { result ≡ count_for word.now events.now }
{
    events
        .iter()
        .filter(|event| word_for(**event) == word)
        .count()
}

/// Returns the first part of the verdict on a run.
#[tactic(auto, unfolding(crate::specs::Telling::worked_text))]
fn worked_text(
    alloc: Global,
    events: usize,
    claimed: usize,
    done: usize,
) -> Result<String, AllocError>
    ensures { IfOk result (λ text. string_bytes text ≡ worked_text events claimed done) }
{
    format!(in alloc; "lawful\nevents {events} claimed {claimed} done {done}")
}

/// Returns how many workers are gone, in each way.
#[tactic(auto, unfolding(crate::specs::Telling::went_text))]
fn went_text(alloc: Global, ended: usize, halted: usize, left: usize) -> Result<String, AllocError>
    ensures { IfOk result (λ text. string_bytes text ≡ went_text ended halted left) }
{
    format!(in alloc; " ended {ended} halted {halted} left {left}\n")
}

fn both(alloc: Global, one: &str, other: &str) -> Result<String, AllocError>
    ensures { IfOk result (λ text. string_bytes text ≡ one.now ++ other.now) }
{
    format!(in alloc; "{one}{other}")
}

/// Returns the verdict on a run: how many events there are, and of each kind.
pub(crate) fn lawful_text(alloc: Global, events: &[Event]) -> Result<String, AllocError>
    ensures { IfOk result (λ text. string_bytes text ≡ lawful_text events.now) }
{
    let claimed = count_for("claimed", events);
    let done = count_for("done", events);
    let worked = worked_text(alloc, events.len(), claimed, done)?;
    let ended = count_for("ended", events);
    let halted = count_for("halted", events);
    let left = count_for("left", events);
    let went = went_text(alloc, ended, halted, left)?;
    both(alloc, worked.as_str(), went.as_str())
}
