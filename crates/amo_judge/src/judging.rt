//! The judge of a text.
ghost use Rattle.std.specs.Prelude.{◌≡◌, ◌≤◌, IfOk, length, string_bytes};
ghost use Rattle.amo_world.specs.Answer.{verdict};
ghost use Rattle.amo_judge.specs.History.{history_in};
ghost use Rattle.amo_judge.specs.Lines.{lines_of};
ghost use Rattle.amo_judge.specs.Judgement.{wrong_text, refused_line, refused_text, unlawful_lines, unlawful_text, verdict_text, answer, judgement};

use crate::history::History;
use crate::lines::lines_of;
use crate::reading::read_history;
use crate::reasons::why_of;
use crate::refusal::{Refusal, Wrong};
use crate::telling::{event_text, lawful_text, worker_of};
use amo_kk::Event;
use amo_params::{GivensFault, MAX_BETA, MAX_JOBS, MAX_TEXT, MAX_WORKERS};
use amo_world::{Verdict, judge};
use std::alloc::{AllocError, Global};

/// The most bytes of a history.
const MOST_BYTES: usize = MAX_TEXT;

/// Returns the fault of a line, in words.
#[tactic(auto, unfolding(crate::specs::Judgement::wrong_text))]
fn wrong_text(alloc: Global, wrong: Wrong) -> Result<String, AllocError>
    ensures { IfOk result (λ text. string_bytes text ≡ wrong_text wrong) }
{
    match wrong {
        Wrong::NoFirstLine => format!(in alloc; "this is no first line of a history"),
        Wrong::NoGivens(GivensFault::TooManyJobs) => {
            format!(in alloc; "there are more than {MAX_JOBS} jobs")
        }
        Wrong::NoGivens(GivensFault::NoWorkers) => format!(in alloc; "there is no worker"),
        Wrong::NoGivens(GivensFault::TooManyWorkers) => {
            format!(in alloc; "there are more than {MAX_WORKERS} workers")
        }
        Wrong::NoGivens(GivensFault::BetaLow) => {
            format!(in alloc; "the threshold is below the number of workers")
        }
        Wrong::NoGivens(GivensFault::BetaHigh) => {
            format!(in alloc; "the threshold is above {MAX_BETA}")
        }
        Wrong::OtherBound(bound) => format!(in alloc; "the bound of these numbers is {bound}"),
        Wrong::NoEvent => format!(in alloc; "this is no event"),
        Wrong::NotDue(due) => format!(in alloc; "the event that is due has number {due}"),
        Wrong::WorkerBeyond(most) => format!(in alloc; "this names a worker beyond {most}"),
        Wrong::JobBeyond(most) => format!(in alloc; "this names a job beyond {most}"),
    }
}

#[tactic(auto, unfolding(crate::specs::Judgement::refused_line))]
fn refused_line(alloc: Global, line: usize, words: &str) -> Result<String, AllocError>
    ensures { IfOk result (λ text. string_bytes text ≡ refused_line line words.now) }
{
    format!(in alloc; "refused\nline {line}: {words}\n")
}

/// Returns the verdict on a text that isn't a history.
fn refused_text(alloc: Global, refusal: Refusal) -> Result<String, AllocError>
    ensures { IfOk result (λ text. string_bytes text ≡ refused_text refusal) }
{
    let words = wrong_text(alloc, refusal.wrong)?;
    refused_line(alloc, refusal.line, words.as_str())
}

#[tactic(auto, unfolding(crate::specs::Judgement::unlawful_lines))]
fn unlawful_lines(
    alloc: Global,
    number: u32,
    event: &str,
    reason: &str,
) -> Result<String, AllocError>
    ensures { IfOk result (λ text. string_bytes text ≡ unlawful_lines number event.now reason.now) }
{
    let line = number as usize + 1;
    format!(in alloc; "unlawful {number}\nline {line}: {event}\n{reason}\n")
}

/// Returns the verdict if an event of this number is no step after those before it.
fn unlawful_text(
    alloc: Global,
    history: &History<'_>,
    number: u32,
    before: &[Event],
    event: Event,
) -> Result<String, AllocError>
    ensures { IfOk result (λ text. string_bytes text ≡ unlawful_text history.now number before.now event) }
{
    let text = event_text(alloc, history, number, event)?;
    let reason = why_of(alloc, history, before, worker_of(event), event)?;
    unlawful_lines(alloc, number, text.as_str(), reason.as_str())
}

/// Returns the verdict if the first event that is no step has this number.
fn bad_text(alloc: Global, history: &History<'_>, number: u32) -> Result<String, AllocError>
    requires { (1 ≤ number) × (number ≤ length history.now.events) }
    ensures { IfOk result (λ text. string_bytes text ≡ verdict_text history.now (Verdict.FirstBad number)) }
{
    let (before, behind) = history.events().split_at(number as usize - 1);
    unlawful_text(alloc, history, number, before, behind[0])
}

/// Returns the verdict on a history.
fn history_text(alloc: Global, history: &History<'_>) -> Result<String, AllocError>
    ensures { IfOk result (λ text. string_bytes text ≡ verdict_text history.now (verdict history.now.givens history.now.events)) }
{
    match judge(alloc, history.givens(), history.events())? {
        Verdict::Lawful => lawful_text(alloc, history.events()),
        Verdict::FirstBad(number) => bad_text(alloc, history, number),
    }
}

/// Returns the verdict on a text that was read.
fn answer(alloc: Global, read: Result<History<'_>, Refusal>) -> Result<String, AllocError>
    ensures { IfOk result (λ text. string_bytes text ≡ answer read.entry) }
{
    match read {
        Ok(history) => history_text(alloc, &history),
        Err(refusal) => refused_text(alloc, refusal),
    }
}

/// Returns the verdict on a text that isn't too long.
fn judge_lines(alloc: Global, bytes: &[u8]) -> Result<String, AllocError>
    ensures { IfOk result (λ text. string_bytes text ≡ answer (history_in (lines_of bytes.now))) }
{
    let lines = lines_of(alloc, bytes)?;
    let read = read_history(alloc, &lines)?;
    answer(alloc, read)
}

/// Returns the verdict on a text, in lines. `lawful` means a history whose events are a run, with
/// the number of events of each kind. `unlawful` comes with the first event that is no step, and
/// the reason. `refused` means that the text isn't a history. It comes with the wrong line and its
/// fault, or states that the text has more than 1,048,576 bytes.
///
/// # Errors
///
/// `AllocError` if there was no memory.
pub fn judgement(alloc: Global, bytes: &[u8]) -> Result<String, AllocError>
    ensures text { IfOk result (λ text. string_bytes text ≡ judgement bytes.now) }
{
    if bytes.len() > MOST_BYTES {
        return format!(in alloc; "refused\nthe text is longer than {MOST_BYTES} bytes\n");
    }
    judge_lines(alloc, bytes)
}
