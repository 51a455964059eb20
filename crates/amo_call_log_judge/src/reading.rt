//! Reads a log.
ghost use Rattle.std.specs.Prelude.{◌≡◌, ◌<◌, ◌≤◌, IfOk, [], length, map};
ghost use Rattle.amo_call_log_judge.specs.Judgement.{IsRead};
ghost use Rattle.amo_call_log_judge.specs.Reading.{as_worker, event_in, event_of_four, event_of_three, event_of_two, events_from, events_of_parts, if_ended, number_in, numbers_in, worker_in, AreEvents};

use crate::event::{Attempt, Event, Handing};
use crate::lines::{has_word, parts_of, words_of};
use crate::verdict::{Refusal, Wrong};
use amo_decimal::number_of_bytes;
use amo_params::MAX_WORKERS;
use std::alloc::{AllocError, Global};

/// Returns the number that a word says.
fn number_in(word: &[u8]) -> Result<u64, Wrong>
    ensures { result ≡ number_in word.now }
{
    number_of_bytes(word).ok_or(Wrong::NoNumber)
}

/// Returns the number, if it is one of a worker.
fn as_worker(number: u64) -> Result<u64, Wrong>
    ensures { result ≡ as_worker number }
{
    if number > MAX_WORKERS as u64 {
        return Err(Wrong::WorkerBeyond);
    }
    Ok(number)
}

/// Returns the worker that a word names.
fn worker_in(word: &[u8]) -> Result<u64, Wrong>
    ensures { result ≡ worker_in word.now }
{
    let number = number_in(word)?;
    as_worker(number)
}

/// Returns the event of two words.
fn event_of_two(words: &[&[u8]]) -> Result<Event, Wrong>
    requires { 2 ≤ length words.now }
    ensures { result ≡ event_of_two (map (λ word. word.now) words.now) }
{
    if has_word(words, 2, b"begins") {
        let worker = worker_in(words[1])?;
        return Ok(Event::Begins { worker });
    }
    if has_word(words, 2, b"dies") {
        let worker = worker_in(words[1])?;
        return Ok(Event::Dies { worker });
    }
    if has_word(words, 2, b"hands-over") {
        let worker = worker_in(words[1])?;
        return Ok(Event::HandsOver { worker });
    }
    if has_word(words, 2, b"ends") {
        let place = number_in(words[1])?;
        return Ok(Event::Ends { place });
    }
    Err(Wrong::NoEvent)
}

/// Returns the event of three words.
fn event_of_three(words: &[&[u8]]) -> Result<Event, Wrong>
    requires { 3 ≤ length words.now }
    ensures { result ≡ event_of_three (map (λ word. word.now) words.now) }
{
    if has_word(words, 3, b"lands") {
        let worker = worker_in(words[1])?;
        let line = number_in(words[2])?;
        return Ok(Event::Lands { worker, line });
    }
    if has_word(words, 3, b"intends") {
        let worker = worker_in(words[1])?;
        let line = number_in(words[2])?;
        return Ok(Event::Intends { worker, line });
    }
    if has_word(words, 3, b"looks") {
        let worker = worker_in(words[1])?;
        let other = worker_in(words[2])?;
        return Ok(Event::Looks { worker, other });
    }
    if has_word(words, 3, b"opens") {
        let worker = worker_in(words[1])?;
        let serial = number_in(words[2])?;
        return Ok(Event::Opens(Attempt { worker, serial }));
    }
    Err(Wrong::NoEvent)
}

/// Returns the numbers that two words say.
fn numbers_in(one: &[u8], other: &[u8]) -> Result<(u64, u64), Wrong>
    ensures { result ≡ numbers_in one.now other.now }
{
    let first = number_in(one)?;
    let second = number_in(other)?;
    Ok((first, second))
}

/// Returns the event of four words.
fn event_of_four(words: &[&[u8]]) -> Result<Event, Wrong>
    ensures { result ≡ event_of_four (map (λ word. word.now) words.now) }
{
    if has_word(words, 4, b"performs") {
        let worker = worker_in(words[1])?;
        let (serial, line) = numbers_in(words[2], words[3])?;
        return Ok(Event::Performs(Handing {
            worker,
            serial,
            line,
        }));
    }
    Err(Wrong::NoEvent)
}

/// Returns the event of these words.
fn event_in(words: &[&[u8]]) -> Result<Event, Wrong>
    ensures { result ≡ event_in (map (λ word. word.now) words.now) }
{
    if words.len() == 2 {
        return event_of_two(words);
    }
    if words.len() == 3 {
        return event_of_three(words);
    }
    event_of_four(words)
}

/// Returns the events of these lines, or the first line that has none.
fn events_in(alloc: Global, lines: &[&[u8]]) -> Result<Result<Vec<Event>, Refusal>, AllocError>
    ensures { IfOk result (λ read. AreEvents (events_from [] (map (λ line. line.now) lines.now)) read) }
{
    let mut events = Vec::new(alloc);
    for k in 0..lines.len() {
        let words = words_of(alloc, lines[k])?;
        match event_in(words.as_slice()) {
            Ok(event) => events.push(event)?,
            Err(wrong) => return Ok(Err(Refusal { line: k + 1, wrong })),
        }
    }
    Ok(Ok(events))
}

/// Returns the events. If a further line has no line feed, that is the fault.
fn if_ended(behind: &[u8], events: Vec<Event>) -> Result<Vec<Event>, Refusal>
    ensures { AreEvents (if_ended behind.now events.items) result }
{
    if behind.is_empty() {
        return Ok(events);
    }
    let (line, wrong) = (events.len() + 1, Wrong::NoLineFeed);
    Err(Refusal { line, wrong })
}

/// Returns the events of the parts of a text, the last of which follows the last line feed.
fn events_of_parts(
    alloc: Global,
    parts: &[&[u8]],
) -> Result<Result<Vec<Event>, Refusal>, AllocError>
    requires { 0 < length parts.now }
    ensures { IfOk result (λ read. AreEvents (events_of_parts (map (λ part. part.now) parts.now)) read) }
{
    let (lines, behind) = parts.split_at(parts.len() - 1);
    match events_in(alloc, lines)? {
        Ok(events) => Ok(if_ended(behind[0], events)),
        Err(refusal) => Ok(Err(refusal)),
    }
}

/// Returns the events of which the text is the log, or the first line that is wrong, and why.
///
/// # Errors
/// Out of memory.
pub fn read_log(alloc: Global, text: &[u8]) -> Result<Result<Vec<Event>, Refusal>, AllocError>
    ensures { IfOk result (IsRead text.now) }
{
    let parts = parts_of(alloc, text)?;
    events_of_parts(alloc, parts.as_slice())
}
