//! The faults of a word of the schedule.
use crate::document::Document;
use crate::wording::{push_count, push_line, push_quoted};
use amo_plan::{HIGHEST_IN_WORD, number_within};
use std::alloc::{AllocError, Global};

/// Returns true if the byte parts words.
fn is_space(byte: u8) -> bool {
    matches!(byte, b' ' | b'\t' | b'\n' | b'\r')
}

/// Returns the word in this place, from 1. It is empty if the text has fewer words.
fn word_in(text: &str, place: u64) -> &str {
    let mut at = 0u64;
    for word in text.as_bytes().split(|byte| is_space(*byte)) {
        if word.is_empty() {
            continue;
        }
        at = at.saturating_add(1);
        if at == place {
            return std::str::from_utf8(word).unwrap_or("");
        }
    }
    ""
}

/// Returns the number that a part of a word is.
fn number(text: &str) -> Option<u64> {
    number_within(1, HIGHEST_IN_WORD, text.as_bytes())
}

/// Returns how many moves a word is, if it is one.
fn count_in(word: &str) -> u64 {
    match word.split_once("*") {
        Some((_, count)) => number(count).unwrap_or(0),
        None => 1,
    }
}

/// Returns how many moves a schedule has, each word of which is one.
pub(crate) fn moves_in(text: &str) -> u64 {
    let mut moves = 0u64;
    for word in text.as_bytes().split(|byte| is_space(*byte)) {
        if !word.is_empty() {
            moves = moves.saturating_add(count_in(std::str::from_utf8(word).unwrap_or("")));
        }
    }
    moves
}

/// Returns the worker that a word names, if it is one of this version.
fn worker_of(version: Option<u64>, word: &str) -> Option<u64> {
    if let Some(rest) = word.strip_prefix("x") {
        return number(rest);
    }
    if version == Some(2) {
        if let Some(rest) = word.strip_prefix("l") {
            return number(rest);
        }
    }
    match word.split_once("*") {
        Some((worker, count)) => {
            number(count)?;
            number(worker)
        }
        None => number(word),
    }
}

/// Returns true if the text has digits alone.
fn is_digits(text: &str) -> bool {
    !text.is_empty() && text.bytes().all(|byte| byte.is_ascii_digit())
}

/// Returns a text to write in place of numbers that can't be read.
fn hint_of_numbers(text: &str) -> &'static str {
    let (worker, count) = text.split_once("*").unwrap_or((text, "1"));
    if worker == "0" {
        "Workers are numbered from 1."
    } else if count == "0" {
        "A count is 1 to 999999."
    } else if is_digits(worker) && is_digits(count) {
        if worker.starts_with("0") || count.starts_with("0") {
            "Write numbers without a 0 in front."
        } else {
            "A number has at most six digits."
        }
    } else if text.contains("-") {
        "There are no ranges and no negative numbers: write each turn, as `1 2 3`."
    } else {
        "Write `1` for a turn of worker 1, `1*5` for five turns, and `x1` for its stop."
    }
}

/// Returns a text to write in place of a word that can't be read, before this one.
fn hint_of(version: Option<u64>, word: &str, next: &str) -> &'static str {
    let bare = match word.strip_prefix("x") {
        Some(rest) => rest,
        None => word.strip_prefix("l").unwrap_or(word),
    };
    if word.starts_with("#") {
        "A schedule has no comments: write them outside of its text."
    } else if version != Some(2) && word.starts_with("l") && number(bare).is_some() {
        "`l` is for version 2 alone: write `version = 2`, or leave the word out."
    } else if bare.is_empty() && number(next).is_some() {
        "The letter and the number are one word, without a space, as `x1`."
    } else if word.starts_with("*") || word.ends_with("*") {
        "A worker and its count are one word, without spaces, as `1*5`."
    } else if word.starts_with("x") && word.contains("*") {
        "A stop has no count: write it as `x1`."
    } else {
        hint_of_numbers(bare)
    }
}

/// Appends what to write in place of a word that can't be read, before this one.
fn push_hint(
    alloc: Global,
    out: &mut String,
    version: Option<u64>,
    word: &str,
    next: &str,
) -> Result<(), AllocError> {
    if word.contains(",") && !word.starts_with("#") {
        let parted = word.replace(alloc, ",", " ")?;
        out.push_str("Words are parted by spaces, without commas: write ")?;
        push_quoted(out, parted.as_str().trim())?;
        return out.push_str(".\n");
    }
    let small = word.to_ascii_lowercase(alloc)?;
    if worker_of(version, small.as_str()).is_some() {
        out.push_str("Did you mean ")?;
        push_quoted(out, small.as_str())?;
        return out.push_str("?\n");
    }
    out.push_str(hint_of(version, word, next))?;
    out.push_str("\n")
}

/// Appends a word of the schedule and its place.
fn push_word(
    out: &mut String,
    document: &Document<'_>,
    word: &str,
    place: u32,
) -> Result<(), AllocError> {
    push_line(out, document.line_of(0, "schedule"))?;
    push_quoted(out, word)?;
    write!(out, ", word {place} of the schedule, ")
}

/// Appends that the word in this place of the schedule is invalid.
pub(crate) fn push_bad_word(
    alloc: Global,
    out: &mut String,
    document: &Document<'_>,
    place: u32,
) -> Result<(), AllocError> {
    let text = document.text_at("schedule");
    let word = word_in(text, place as u64);
    let next = word_in(text, place as u64 + 1);
    push_word(out, document, word, place)?;
    out.push_str("can't be read. ")?;
    push_hint(alloc, out, document.natural("version"), word, next)
}

/// Returns the worker and the count of a word that would be read with the two turned round.
fn turned(workers: u64, word: &str) -> Option<(u64, u64)> {
    let (count, worker) = word.split_once("*")?;
    let (count, worker) = (number(count)?, number(worker)?);
    if worker <= workers {
        Some((worker, count))
    } else {
        None
    }
}

/// Appends that the word in this place of the schedule names a worker that there isn't.
pub(crate) fn push_no_worker(
    out: &mut String,
    document: &Document<'_>,
    place: u32,
) -> Result<(), AllocError> {
    let word = word_in(document.text_at("schedule"), place as u64);
    let worker = worker_of(document.natural("version"), word).unwrap_or(0);
    let workers = document.natural("workers").unwrap_or(0);
    push_word(out, document, word, place)?;
    write!(out, "names worker {worker}, and there ")?;
    out.push_str(if workers == 1 { "is " } else { "are " })?;
    push_count(out, workers, "worker", "workers")?;
    match turned(workers, word) {
        Some((worker, count)) => {
            write!(
                out,
                ". The worker stands before its count: did you mean `{worker}*{count}`?\n"
            )
        }
        None => write!(
            out,
            ". Name a worker from 1 to {workers}, or write a larger number at `workers`.\n"
        ),
    }
}
