//! The words of the judge.
ghost use Rattle.std.specs.Prelude.{◌≡◌, ◌<◌, ◌+◌, ◌^◌, IfOk, length, map, string_bytes};
ghost use Rattle.amo_call_log_judge.specs.Against.{IsVerdictOn};
ghost use Rattle.amo_call_log_judge.specs.Events.{event_of};
ghost use Rattle.amo_call_log_judge.specs.Grammar.{IsLog};
ghost use Rattle.amo_call_log_judge.specs.Judgement.{AnswersLogOf, IsAnswer};
ghost use Rattle.amo_call_log_judge.specs.Telling.{counted, event_text, no_run_line, no_run_text, reason_text, refused_line, refused_text, run_line, run_text, wrong_text};

use crate::event::{Attempt, Event, Handing};
use crate::judging::judge_run;
use crate::reading::read_log;
use crate::reason::{Reason, Verdict};
use crate::verdict::{Refusal, Wrong};
use amo_params::MAX_WORKERS;
use std::alloc::{AllocError, Global};

/// Returns what happened by the event.
#[tactic(auto, unfolding(crate::specs::Telling::event_text))]
fn event_text(alloc: Global, event: Event) -> Result<String, AllocError>
    ensures { IfOk result (λ text. string_bytes text ≡ event_text (event_of event)) }
{
    match event {
        Event::Begins { worker } => format!(in alloc; "worker {worker} begins"),
        Event::Dies { worker } => format!(in alloc; "worker {worker} dies"),
        Event::Lands { worker, line } => format!(in alloc;
            "an intent of worker {worker} for line {line} lands"
        ),
        Event::Intends { worker, line } => format!(in alloc; "worker {worker} intends line {line}"),
        Event::Looks { worker, other } => format!(in alloc;
            "worker {worker} looks at journal {other}"
        ),
        Event::HandsOver { worker } => format!(in alloc; "worker {worker} hands over"),
        Event::Performs(
            Handing {
                worker,
                serial,
                line,
            },
        ) => format!(in alloc; "attempt {serial} of worker {worker} performs line {line}"),
        Event::Ends { place } => format!(in alloc; "the attempt at place {place} ends"),
        Event::Opens(Attempt { worker, serial }) => format!(in alloc;
            "attempt {serial} of worker {worker} is opened"
        ),
    }
}

/// Returns why an event may not follow.
#[tactic(auto, unfolding(crate::specs::Telling::reason_text))]
fn reason_text(alloc: Global, reason: Reason) -> Result<String, AllocError>
    ensures { IfOk result (λ text. string_bytes text ≡ reason_text reason) }
{
    match reason {
        Reason::HasProcess => format!(in alloc; "a process has its journal"),
        Reason::NoProcess => format!(in alloc; "no process has its journal"),
        Reason::HasIntent => format!(in alloc; "has not handed over its last intent"),
        Reason::NoIntent => format!(in alloc; "has no acknowledged intent"),
        Reason::Taken { serial, line } => format!(in alloc;
            "attempt {serial} there is at line {line} too, and is not opened"
        ),
        Reason::NotSeen { other } => format!(in alloc;
            "has not looked at journal {other} since its intent"
        ),
        Reason::NotAlive => format!(in alloc; "it is not alive"),
        Reason::PerformedBefore => format!(in alloc; "it has performed its line before"),
        Reason::NotKept => format!(in alloc; "its journal has no such intent"),
        Reason::Held => format!(in alloc; "its process may still hand it over"),
        Reason::Alive => format!(in alloc; "it is alive"),
        Reason::Performed => format!(in alloc; "it has performed its line"),
    }
}

/// Returns the fault of a line, in words.
#[tactic(auto, unfolding(crate::specs::Telling::wrong_text))]
fn wrong_text(alloc: Global, wrong: Wrong) -> Result<String, AllocError>
    ensures { IfOk result (λ text. string_bytes text ≡ wrong_text wrong) }
{
    match wrong {
        Wrong::NoEvent => format!(in alloc; "this is no event"),
        Wrong::NoNumber => format!(in alloc; "this has no number below 2 to the 64"),
        Wrong::WorkerBeyond => format!(in alloc; "this names a worker beyond {MAX_WORKERS}"),
        Wrong::NoLineFeed => format!(in alloc; "this has no line feed at its end"),
    }
}

#[tactic(auto, unfolding(crate::specs::Telling::refused_line))]
fn refused_line(alloc: Global, line: usize, words: &str) -> Result<String, AllocError>
    ensures { IfOk result (λ text. string_bytes text ≡ refused_line line words.now) }
{
    format!(in alloc; "refused\nline {line}: {words}\n")
}

/// Returns the answer to a text that is no log.
fn refused_text(alloc: Global, refusal: Refusal) -> Result<String, AllocError>
    ensures { IfOk result (λ text. string_bytes text ≡ refused_text refusal) }
{
    let words = wrong_text(alloc, refusal.wrong)?;
    refused_line(alloc, refusal.line, words.as_str())
}

#[tactic(auto, unfolding(crate::specs::Telling::no_run_line))]
fn no_run_line(alloc: Global, line: usize, event: &str, reason: &str) -> Result<String, AllocError>
    ensures { IfOk result (λ text. string_bytes text ≡ no_run_line line event.now reason.now) }
{
    format!(in alloc; "no run: line {line}: {event}, but {reason}\n")
}

/// Returns the answer if the event at this index may not follow.
fn no_run_text(
    alloc: Global,
    index: usize,
    event: Event,
    reason: Reason,
) -> Result<String, AllocError>
    requires { index + 1 < 2 ^ 64 }
    ensures { IfOk result (λ text. string_bytes text ≡ no_run_text index (event_of event) reason) }
{
    let event = event_text(alloc, event)?;
    let reason = reason_text(alloc, reason)?;
    no_run_line(alloc, index + 1, event.as_str(), reason.as_str())
}

/// Returns the number, and the word for one thing or for several.
#[tactic(auto, unfolding(crate::specs::Telling::counted))]
fn counted(alloc: Global, count: usize, one: &str, several: &str) -> Result<String, AllocError>
    ensures { IfOk result (λ text. string_bytes text ≡ counted count one.now several.now) }
{
    if count == 1 {
        return format!(in alloc; "1 {one}");
    }
    format!(in alloc; "{count} {several}")
}

#[tactic(auto, unfolding(crate::specs::Telling::run_line))]
fn run_line(alloc: Global, events: &str, lines: &str) -> Result<String, AllocError>
    ensures { IfOk result (λ text. string_bytes text ≡ run_line events.now lines.now) }
{
    format!(in alloc; "a run: {events}, {lines} performed, none twice\n")
}

/// Returns the answer to a run of so many events, in which so many lines were performed.
fn run_text(alloc: Global, events: usize, performed: usize) -> Result<String, AllocError>
    ensures { IfOk result (λ text. string_bytes text ≡ run_text events performed) }
{
    let events = counted(alloc, events, "event", "events")?;
    let lines = counted(alloc, performed, "line", "lines")?;
    run_line(alloc, events.as_str(), lines.as_str())
}

/// Returns the answer to this verdict on these events.
fn verdict_text(alloc: Global, events: &[Event], verdict: Verdict) -> Result<String, AllocError>
    requires verdict { IsVerdictOn (map event_of events.now) verdict }
    requires few { length events.now < 2 ^ 64 }
    ensures { IfOk result (λ answer. AnswersLogOf (map event_of events.now) (string_bytes answer)) }
{
    match verdict {
        Verdict::Run { performed } => run_text(alloc, events.len(), performed),
        Verdict::NoRun { index, reason } => no_run_text(alloc, index, events[index], reason),
    }
}

/// Returns the answer to the log of these events.
fn log_text(alloc: Global, text: &[u8], events: &[Event]) -> Result<String, AllocError>
    requires log { IsLog text.now (map event_of events.now) }
    requires few { length events.now < 2 ^ 64 }
    ensures { IfOk result (λ answer. IsAnswer text.now (string_bytes answer)) }
{
    let verdict = judge_run(alloc, events)?;
    verdict_text(alloc, events, verdict)
}

/// Returns the answer to a text. If the text is the log of a run, the answer has the number of
/// events and of lines that were performed. If an event may not follow, the answer has the line of
/// the first such event, and the reason. Else it has the first line that is wrong, and why.
///
/// # Errors
/// Out of memory.
pub fn run_judgement(alloc: Global, text: &[u8]) -> Result<String, AllocError>
    ensures { IfOk result (λ answer. IsAnswer text.now (string_bytes answer)) }
{
    match read_log(alloc, text)? {
        Ok(events) => log_text(alloc, text, events.as_slice()),
        Err(refusal) => refused_text(alloc, refusal),
    }
}
