//! The status of a run and the doubts, as JSON.
ghost use Rattle.std.specs.Prelude.{◌≡◌, ◌≤◌, ◌<◌, ◌+◌, ◌++◌, ◌||◌, [], None, Some, false, length, map, slice_index_or, string_bytes, IfOk, OnOk};
ghost use Rattle.json.specs.Print.{quoted};
ghost use Rattle.amo_status.specs.Json.{comma_if, doubts_json, is_shown, json_head, json_numbers, json_row, json_rows, json_tail, status_json, text_or_null};

use crate::age::{age_json, age_of, time_json};
use crate::count::Counts;
use crate::heading::{Style, push_counts};
use crate::rows::{is_listed, push_parts, state_word, text_at};
use crate::standing::LineStatus;
use crate::state::{State, is};
use serde_json::Value;
use std::alloc::{AllocError, Global};
use std::str;

/// Returns the status of a run, as a JSON object and a line feed. It has the counts, the workers
/// that are alive, and an object for each line that is in doubt, untouched or running. The text of
/// the line k + 1 stands at k. A text that is not UTF-8 is written as `null`.
///
/// # Errors
///
/// `AllocError` if there was no memory.
pub fn status_json(
    alloc: Global,
    counts: &Counts,
    alive: &[u64],
    standings: &[LineStatus],
    texts: &[&[u8]],
) -> Result<Vec<u8>, AllocError>
    requires { length standings.now ≤ length texts.now }
    ensures { IfOk result (λ text. text.items ≡ status_json counts.now alive.now standings.now (map (λ t. t.now) texts.now)) }
{
    let mut text = Vec::new(alloc);
    text.extend_from_slice(b"{")?;
    push_counts(&mut text, alloc, Style::Members, counts)?;
    text.extend_from_slice(b",\"alive\":[")?;
    push_numbers(&mut text, alloc, alive)?;
    text.extend_from_slice(b"],\"intents\":[")?;
    push_json_rows(&mut text, alloc, None, standings, texts)?;
    text.extend_from_slice(b"]}\n")?;
    Ok(text)
}

/// Returns the lines that are in doubt, as a JSON list of objects, and a line feed. Each has the
/// time at which it was begun, the one at which it ended, and how many seconds ago that was by a
/// clock that shows `now`. A time that is not known is `null`, and so is the age if the end is not
/// known or ahead of the clock.
///
/// # Errors
///
/// `AllocError` if there was no memory.
pub fn doubts_json(
    alloc: Global,
    now: u64,
    standings: &[LineStatus],
    texts: &[&[u8]],
) -> Result<Vec<u8>, AllocError>
    requires { length standings.now ≤ length texts.now }
    ensures { IfOk result (λ text. text.items ≡ doubts_json now standings.now (map (λ t. t.now) texts.now)) }
{
    let mut text = Vec::new(alloc);
    text.push(b'[')?;
    push_json_rows(&mut text, alloc, Some(now), standings, texts)?;
    text.extend_from_slice(b"]\n")?;
    Ok(text)
}

/// Adds the numbers, a comma between each two.
fn push_numbers(text: &mut Vec<u8>, alloc: Global, numbers: &[u64]) -> Result<(), AllocError>
    ensures { OnOk result (text.new.items ≡ text.old.items ++ json_numbers false numbers.now) }
{
    let mut later = false;
    for number in numbers {
        let word = format!(in alloc; "{number}")?;
        push_comma(text, later)?;
        text.extend_from_slice(word.as_bytes())?;
        later = true;
    }
    Ok(())
}

/// Adds a comma if an object stands before.
fn push_comma(text: &mut Vec<u8>, later: bool) -> Result<(), AllocError>
    ensures { OnOk result (text.new.items ≡ text.old.items ++ comma_if later) }
{
    if later {
        text.push(b',')?;
    }
    Ok(())
}

/// Adds the objects of these lines: with a clock, those in doubt, with times.
fn push_json_rows(
    text: &mut Vec<u8>,
    alloc: Global,
    clock: Option<u64>,
    standings: &[LineStatus],
    texts: &[&[u8]],
) -> Result<(), AllocError>
    requires { length standings.now ≤ length texts.now }
    ensures { OnOk result (text.new.items ≡ text.old.items ++ json_rows clock false 0 standings.now (map (λ t. t.now) texts.now)) }
{
    let mut later = false;
    for (i, standing) in standings.iter().enumerate() {
        push_json_row(text, alloc, clock, later, i, standing, texts)?;
        later = is_later(later, clock, standing.state);
    }
    Ok(())
}

/// Adds the object of this line, if it is shown.
fn push_json_row(
    text: &mut Vec<u8>,
    alloc: Global,
    clock: Option<u64>,
    later: bool,
    i: usize,
    standing: &LineStatus,
    texts: &[&[u8]],
) -> Result<(), AllocError>
    requires { i < length texts.now }
    ensures { OnOk result (text.new.items ≡ text.old.items ++ json_row clock later (i + 1) standing.now (slice_index_or (map (λ t. t.now) texts.now) i [])) }
{
    if !is_shown(clock, standing.state) {
        return Ok(());
    }
    let head = json_head(alloc, i as u64 + 1, standing)?;
    let middle = text_or_null(alloc, text_at(texts, i))?;
    let tail = json_tail(alloc, clock, standing)?;
    push_comma(text, later)?;
    push_parts(text, head.as_bytes(), middle.as_bytes(), tail.as_bytes())
}

/// Returns true if an object stands there, after this line.
fn is_later(later: bool, clock: Option<u64>, state: State) -> bool
    ensures { result ≡ (later || is_shown clock state) }
{
    later || is_shown(clock, state)
}

/// Returns true if a line of this status is shown.
fn is_shown(clock: Option<u64>, state: State) -> bool
    ensures { result ≡ is_shown clock state }
{
    match clock {
        Some(_) => is(State::Doubt, state),
        None => is_listed(state),
    }
}

fn json_head(alloc: Global, line: u64, standing: &LineStatus) -> Result<String, AllocError>
    ensures { IfOk result (λ text. string_bytes text ≡ json_head line standing.now) }
{
    let worker = standing.worker;
    let serial = standing.serial;
    format!(in alloc; "{{\"intent\":\"{worker}.{serial}\",\"line\":{line},\"text\":")
}

fn json_tail(alloc: Global, clock: Option<u64>, standing: &LineStatus) -> Result<String, AllocError>
    ensures { IfOk result (λ text. string_bytes text ≡ json_tail clock standing.now) }
{
    let word = state_word(standing.state);
    match clock {
        Some(now) => timed_tail(alloc, now, standing),
        None => format!(in alloc; ",\"state\":\"{word}\"}}"),
    }
}

fn timed_tail(alloc: Global, now: u64, standing: &LineStatus) -> Result<String, AllocError>
    ensures { IfOk result (λ text. string_bytes text ≡ json_tail (Some now) standing.now) }
{
    let word = state_word(standing.state);
    let time = standing.time;
    let ended = time_json(alloc, standing.ended)?;
    let age = age_json(alloc, age_of(now, standing.ended))?;
    format!(in alloc; ",\"state\":\"{word}\",\"time\":{time},\"ended\":{ended},\"age\":{age}}}")
}

/// Returns a text as a JSON string. Bytes that are not UTF-8 are `null`.
#[tactic(auto, using(crate::proofs::JsonTexts::a_text, crate::proofs::JsonTexts::no_text))]
fn text_or_null(alloc: Global, bytes: &[u8]) -> Result<String, AllocError>
    ensures { IfOk result (λ said. string_bytes said ≡ text_or_null bytes.now) }
{
    match str::from_utf8(bytes) {
        Ok(text) => quoted(alloc, text),
        Err(_) => String::from_str(alloc, "null"),
    }
}

/// Returns a text as a JSON string.
fn quoted(alloc: Global, text: &str) -> Result<String, AllocError>
    ensures { IfOk result (λ said. string_bytes said ≡ quoted text.now) }
{
    Value::try_from_str(alloc, text)?.to_string(alloc)
}
