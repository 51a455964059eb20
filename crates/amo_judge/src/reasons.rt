//! The reasons that an event is no step.
ghost use Rattle.std.specs.Prelude.{◌≡◌, IfOk, string_bytes};
ghost use Rattle.amo_params.specs.Givens.{is_within};
ghost use Rattle.amo_judge.specs.Why.{gone_words, gone_reason, hand_reason, claim_reason, reason_here, reason_of, not_in_hand_text, claimed_text, early_text, reason_text, why_of};

use crate::before::{claim_of, end_of, hand_of, performed};
use crate::history::History;
use crate::telling::worker_of;
use amo_kk::Event;
use amo_params::Givens;
use std::alloc::{AllocError, Global};

/// The reason that an event is no step after those before it.
#[derive(Clone, Copy, Debug, PartialEq, Eq)]
pub(crate) enum Reason {
    /// No worker has this number.
    NoWorker(u32),
    /// This worker was gone by this event, of this number.
    Gone(u32, Event, usize),
    /// No job has this number.
    NoJob(u32),
    /// This worker has this job in its hand since the event of this number.
    InHand(u32, u32, usize),
    /// This worker doesn't have this job in its hand.
    NotInHand(u32, u32),
    /// This job was claimed by this worker in the event of this number.
    ClaimedBefore(u32, u32, usize),
    /// The number of performed jobs (first) is below the number from which on a worker may end by
    /// its own choice.
    Early(usize, u32),
}

/// Returns true if k is in 1..=n.
fn is_within(n: u32, k: u32) -> bool
    ensures { result ≡ is_within n k }
{
    1 <= k && k <= n
}

/// Returns the words for the way in which the event ended a worker's steps.
fn gone_words(event: Event) -> &'static str
    ensures { result.now ≡ gone_words event }
{
    match event {
        Event::Claimed(_, _) | Event::Done(_, _) => "",
        Event::Ended(_) => "had ended",
        Event::Halted(_) => "was halted",
        Event::Left(_) => "had left",
    }
}

/// Returns the reason that worker p was gone before, if it was.
fn gone_reason(p: u32, before: &[Event]) -> Option<Reason>
    ensures { result ≡ gone_reason p before.now }
{
    let (number, event) = end_of(p, before)?;
    Some(Reason::Gone(p, event, number))
}

/// Returns the reason that worker p has a job in its hand, if it has.
fn hand_reason(p: u32, before: &[Event]) -> Option<Reason>
    ensures { result ≡ hand_reason p before.now }
{
    let (job, number) = hand_of(p, before)?;
    Some(Reason::InHand(p, job, number))
}

/// Returns the reason that job j was claimed before, if it was.
fn claim_reason(j: u32, before: &[Event]) -> Option<Reason>
    ensures { result ≡ claim_reason j before.now }
{
    let (number, event) = claim_of(j, before)?;
    Some(Reason::ClaimedBefore(j, worker_of(event), number))
}

/// Returns the reason that the event is no step after these, if its worker exists.
fn reason_here(givens: Givens, before: &[Event], event: Event) -> Option<Reason>
    ensures { result ≡ reason_here givens before.now event }
{
    match event {
        Event::Claimed(_, j) | Event::Done(_, j) if !is_within(givens.jobs, j) => {
            Some(Reason::NoJob(j))
        }
        Event::Claimed(p, j) => hand_reason(p, before).or(claim_reason(j, before)),
        Event::Done(p, j) => Some(Reason::NotInHand(p, j)),
        Event::Ended(p) => {
            let early = Reason::Early(performed(before), givens.bound());
            hand_reason(p, before).or(Some(early))
        }
        Event::Halted(_) => None,
        Event::Left(p) => hand_reason(p, before),
    }
}

/// Returns the reason that the event, of worker p, is no step after these.
fn reason_of(givens: Givens, before: &[Event], p: u32, event: Event) -> Option<Reason>
    ensures { result ≡ reason_of givens before.now p event }
{
    if !is_within(givens.workers, p) {
        return Some(Reason::NoWorker(p));
    }
    if let Some(gone) = gone_reason(p, before) {
        return Some(gone);
    }
    reason_here(givens, before, event)
}

#[tactic(auto, unfolding(crate::specs::Why::not_in_hand_text))]
fn not_in_hand_text(alloc: Global, worker: &str, job: &str) -> Result<String, AllocError>
    ensures { IfOk result (λ text. string_bytes text ≡ not_in_hand_text worker.now job.now) }
{
    format!(in alloc; "worker {worker} doesn't have job {job} in its hand")
}

#[tactic(auto, unfolding(crate::specs::Why::claimed_text))]
fn claimed_text(alloc: Global, job: &str, worker: &str, number: usize) -> Result<String, AllocError>
    ensures { IfOk result (λ text. string_bytes text ≡ claimed_text job.now worker.now number) }
{
    format!(in alloc; "job {job} was claimed by worker {worker} in event {number}")
}

#[tactic(auto, unfolding(crate::specs::Why::early_text))]
fn early_text(alloc: Global, performed: usize, least: u32) -> Result<String, AllocError>
    ensures { IfOk result (λ text. string_bytes text ≡ early_text performed least) }
{
    format!(in alloc;
        "{performed} jobs are performed, and a worker may end by its own choice from {least} on"
    )
}

/// Returns the reason in words, with the names of this history.
#[tactic(auto, unfolding(crate::specs::Why::reason_text))]
fn reason_text(alloc: Global, history: &History<'_>, reason: Reason) -> Result<String, AllocError>
    ensures { IfOk result (λ text. string_bytes text ≡ reason_text history.now reason) }
{
    let (workers, jobs) = (history.workers(), history.jobs());
    match reason {
        Reason::NoWorker(p) => {
            let worker = workers.called(alloc, p)?;
            format!(in alloc; "there is no worker {worker}")
        }
        Reason::Gone(p, event, number) => {
            let worker = workers.called(alloc, p)?;
            let words = gone_words(event);
            format!(in alloc; "worker {worker} {words} in event {number}")
        }
        Reason::NoJob(j) => {
            let job = jobs.called(alloc, j)?;
            format!(in alloc; "there is no job {job}")
        }
        Reason::InHand(p, j, number) => {
            let (worker, job) = (workers.called(alloc, p)?, jobs.called(alloc, j)?);
            format!(in alloc; "worker {worker} has job {job} in its hand since event {number}")
        }
        Reason::NotInHand(p, j) => {
            let (worker, job) = (workers.called(alloc, p)?, jobs.called(alloc, j)?);
            not_in_hand_text(alloc, worker.as_str(), job.as_str())
        }
        Reason::ClaimedBefore(j, p, number) => {
            let (worker, job) = (workers.called(alloc, p)?, jobs.called(alloc, j)?);
            claimed_text(alloc, job.as_str(), worker.as_str(), number)
        }
        Reason::Early(performed, least) => early_text(alloc, performed, least),
    }
}

/// Returns the reason that the event, of worker p, is no step after these, in words.
pub(crate) fn why_of(
    alloc: Global,
    history: &History<'_>,
    before: &[Event],
    p: u32,
    event: Event,
) -> Result<String, AllocError>
    ensures { IfOk result (λ text. string_bytes text ≡ why_of history.now before.now p event) }
{
    match reason_of(history.givens(), before, p, event) {
        Some(reason) => reason_text(alloc, history, reason),
        None => Ok(String::new(alloc)),
    }
}
