//! The entries of a journal, as texts.
ghost use Rattle.std.specs.Prelude.{◌≡◌, IfOk, IfSome, IfNone, string_bytes};
ghost use Rattle.amo_run_log.specs.Entries.{text_of, text_of_answer, Fits, FitsAnswer, code_in, answer_of_word, entry_of_word, entry_in};
ghost use Rattle.amo_run_log.specs.declared.entry.Entry.{Entry as EntryView};

use crate::numbers::{three, two};
use amo_decimal::number;
use std::alloc::{AllocError, Global};
use std::str;

/// The outcome of an intent. A time is in seconds since 1970, or 0 if it is not known.
#[derive(Clone, Copy, Debug, PartialEq, Eq)]
pub enum Outcome {
    /// The command ended with this code, at this time.
    Done { code: u8, time: u64 },
    /// Nobody can know. The answer came at this time.
    Doubt { time: u64 },
    /// It was not begun.
    Unbegun,
    /// It ended at this time with this code, which means that it did nothing.
    Untouched { code: u8, time: u64 },
}

/// An entry of a journal: an intent, or the answer to one.
#[derive(Clone, Copy, Debug, PartialEq, Eq)]
pub enum Entry {
    /// The line of this number is about to be performed. The time is in seconds since 1970.
    Intent { serial: u64, line: u64, time: u64 },
    /// The outcome of the intent of this serial number.
    Answer { serial: u64, answer: Outcome },
}

impl Entry {
    /// Returns the text of the entry, without an end.
    ///
    /// # Errors
    ///
    /// `AllocError` if there was no memory.
    pub fn print(&self, alloc: Global) -> Result<String, AllocError>
        ensures text { IfOk result (λ text. string_bytes text ≡ text_of self.now) }
        ensures fits { Fits self.now }
    {
        match *self {
            Entry::Intent { serial, line, time } => format!(in alloc;
                "intent {serial} {line} {time}"
            ),
            Entry::Answer { serial, answer } => print_answer(alloc, serial, answer),
        }
    }

    /// Returns the entry that these bytes say, or `None`.
    pub fn read(bytes: &[u8]) -> Option<Entry>
        ensures exact { result ≡ entry_in bytes.now }
        // The entry that is read has this text.
        ensures found { IfSome result (λ entry. text_of entry ≡ bytes.now) }
        // The text of an entry is read.
        ensures none { IfNone result ((entry : EntryView) → Fits entry → text_of entry ≡ bytes.now → ⊥) }
    {
        entry_of_bytes(bytes)
    }
}

pub(crate) fn print_answer(
    alloc: Global,
    serial: u64,
    answer: Outcome,
) -> Result<String, AllocError>
    ensures text { IfOk result (λ text. string_bytes text ≡ text_of_answer serial answer) }
    ensures fits { FitsAnswer serial answer }
{
    match answer {
        Outcome::Done { code, time } => format!(in alloc; "done {serial} {code} {time}"),
        Outcome::Doubt { time } => format!(in alloc; "doubt {serial} {time}"),
        Outcome::Unbegun => format!(in alloc; "unbegun {serial}"),
        Outcome::Untouched { code, time } => {
            format!(in alloc; "untouched {serial} {code} {time}")
        }
    }
}

/// Returns the entry that the bytes say. Bytes that are not UTF-8 say none.
#[tactic(auto, using(crate::proofs::EntryTexts::no_text))]
fn entry_of_bytes(bytes: &[u8]) -> Option<Entry>
    ensures { result ≡ entry_in bytes.now }
{
    match str::from_utf8(bytes) {
        Ok(text) => entry_of(text),
        Err(_) => None,
    }
}

fn entry_of(text: &str) -> Option<Entry>
    ensures { result ≡ entry_in text.now }
{
    let (word, rest) = text.split_once(' ')?;
    entry_of_word(word, rest)
}

fn entry_of_word(word: &str, rest: &str) -> Option<Entry>
    ensures { result ≡ entry_of_word word.now rest.now }
{
    if word == "intent" {
        let (serial, line, time) = three(rest)?;
        return Some(Entry::Intent { serial, line, time });
    }
    let (serial, answer) = answer_of_word(word, rest)?;
    Some(Entry::Answer { serial, answer })
}

fn answer_of_word(word: &str, rest: &str) -> Option<(u64, Outcome)>
    ensures { result ≡ answer_of_word word.now rest.now }
{
    match word {
        "done" => {
            let (serial, code, time) = three(rest)?;
            let code = code_of(code)?;
            Some((serial, Outcome::Done { code, time }))
        }
        "doubt" => {
            let (serial, time) = two(rest)?;
            Some((serial, Outcome::Doubt { time }))
        }
        "unbegun" => Some((number(rest)?, Outcome::Unbegun)),
        "untouched" => {
            let (serial, code, time) = three(rest)?;
            let code = code_of(code)?;
            Some((serial, Outcome::Untouched { code, time }))
        }
        _ => None,
    }
}

/// Returns the number as the code of a command. A number above 255 is not a code.
pub fn code_of(number: u64) -> Option<u8>
    ensures { result ≡ code_in number }
{
    if number > 255 {
        return None;
    }
    Some(number as u8)
}
