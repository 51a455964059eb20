//! The lines of a log.
ghost use Rattle.std.specs.Prelude.{◌≡◌, ◌++◌, codes, map, string_bytes, IfOk};
ghost use Rattle.amo_run_log.specs.Entries.{text_of};
ghost use Rattle.amo_run_log.specs.Findings.{word_of};
ghost use Rattle.amo_call_log.specs.Shown.{attempts_text, said_text, shown};
ghost use Rattle.amo_call_log.specs.Lines.{answer_text, call_word, file_name, line_after, line_before, line_of_begin, line_with, words_after, words_before};

use crate::call::{Call, Came};
use crate::shown::{attempts_text, said_text, shown};
use amo_host::LogFile;
use amo_run_log::{Entry, Finding, Resolution};
use std::alloc::{AllocError, Global};

/// Returns the line of a process that begins, of this worker of this run.
pub(crate) fn line_of_begin(
    alloc: Global,
    process: u32,
    worker: u64,
    run: &str,
) -> Result<String, AllocError>
    ensures { IfOk result (λ line. string_bytes line ≡ line_of_begin process worker run.now) }
{
    let run = shown(alloc, run.as_bytes())?;
    let words = format!(in alloc; " {run}")?;
    line_with(alloc, "begin", process, worker, "run", words)
}

/// Returns the line before a call.
pub(crate) fn line_before(
    alloc: Global,
    process: u32,
    worker: u64,
    call: Call<'_>,
) -> Result<String, AllocError>
    ensures { IfOk result (λ line. string_bytes line ≡ line_before process worker call.entry) }
{
    let words = words_before(alloc, call)?;
    line_with(alloc, "before", process, worker, call_word(call), words)
}

/// Returns the line after a call.
pub(crate) fn line_after(
    alloc: Global,
    process: u32,
    worker: u64,
    call: Call<'_>,
    came: Came<'_>,
) -> Result<String, AllocError>
    ensures { IfOk result (λ line. string_bytes line ≡ line_after process worker call.entry came.entry) }
{
    let words = words_after(alloc, came)?;
    line_with(alloc, "after", process, worker, call_word(call), words)
}

/// Returns a line: its side of the call, the process and the worker, and the call with its words.
fn line_with(
    alloc: Global,
    side: &str,
    process: u32,
    worker: u64,
    call: &str,
    words: String,
) -> Result<String, AllocError>
    ensures { IfOk result (λ line. string_bytes line ≡ line_with side.now process worker call.now (string_bytes words)) }
{
    format!(in alloc; "\n{side} {process} {worker} {call}{words} .")
}

/// Returns the name of a call.
fn call_word(call: Call<'_>) -> &'static str
    ensures { result.now ≡ call_word call.entry }
{
    match call {
        Call::Recover(_) => "recover",
        Call::Put(_) => "put",
        Call::Owe(_) => "owe",
        Call::Pay => "pay",
        Call::ReadOn(_) => "read_on",
        Call::Say(_) => "say",
        Call::PutDoubt(..) => "put_doubt",
        Call::PutAnswer(_) => "put_answer",
    }
}

/// Returns the words of a line before a call, with a blank before each word.
fn words_before(alloc: Global, call: Call<'_>) -> Result<String, AllocError>
    ensures { IfOk result (λ words. string_bytes words ≡ words_before call.entry) }
{
    match call {
        Call::Recover(log) => file_words(alloc, log),
        Call::Put(entry) => entry_words(alloc, entry),
        Call::Owe(entry) => entry_words(alloc, entry),
        Call::Pay => Ok(String::new(alloc)),
        Call::ReadOn(log) => file_words(alloc, log),
        Call::Say(line) => said_words(alloc, line),
        Call::PutDoubt(serial, time) => format!(in alloc; " doubt {serial} {time}"),
        Call::PutAnswer(answer) => answer_words(alloc, answer),
    }
}

/// Returns the words of a line after a call, with a blank before each word.
fn words_after(alloc: Global, came: Came<'_>) -> Result<String, AllocError>
    ensures { IfOk result (λ words. string_bytes words ≡ words_after came.entry) }
{
    match came {
        Came::Made => Ok(String::new(alloc)),
        Came::Fell => String::from_str(alloc, " failed"),
        Came::Attempts(appends) => attempts_words(alloc, appends),
        Came::Reply(line) => reply_words(alloc, line),
        Came::NoReply => String::from_str(alloc, " none"),
    }
}

/// Returns the name of a log's file, after a blank.
fn file_words(alloc: Global, log: LogFile) -> Result<String, AllocError>
    ensures { IfOk result (λ words. string_bytes words ≡ codes " " ++ file_name log) }
{
    match log {
        LogFile::Answers => String::from_str(alloc, " answers"),
        LogFile::Journal(worker) => format!(in alloc; " journal.{worker}"),
    }
}

/// Returns the text of an entry, after a blank.
fn entry_words(alloc: Global, entry: Entry) -> Result<String, AllocError>
    ensures { IfOk result (λ words. string_bytes words ≡ codes " " ++ text_of entry) }
{
    let text = entry.print(alloc)?;
    format!(in alloc; " {text}")
}

/// Returns the text of an operator's answer, after a blank.
fn answer_words(alloc: Global, answer: Finding) -> Result<String, AllocError>
    ensures { IfOk result (λ words. string_bytes words ≡ codes " " ++ answer_text answer) }
{
    let worker = answer.worker;
    let serial = answer.serial;
    let verdict = verdict_word(answer.verdict);
    format!(in alloc; " {verdict} {worker} {serial}")
}

/// Returns the word of an operator's verdict.
fn verdict_word(verdict: Resolution) -> &'static str
    ensures { result.now ≡ word_of verdict }
{
    match verdict {
        Resolution::Done => "done",
        Resolution::NotDone => "not-done",
    }
}

/// Returns the text of a line to the runner, after a blank.
fn said_words(alloc: Global, line: &[u8]) -> Result<String, AllocError>
    ensures { IfOk result (λ words. string_bytes words ≡ codes " " ++ said_text line.now) }
{
    let text = said_text(alloc, line)?;
    format!(in alloc; " {text}")
}

/// Returns the runner's line, after a blank.
fn reply_words(alloc: Global, line: &[u8]) -> Result<String, AllocError>
    ensures { IfOk result (λ words. string_bytes words ≡ codes " " ++ shown line.now) }
{
    let text = shown(alloc, line)?;
    format!(in alloc; " {text}")
}

/// Returns what the appends of a journal say, after a blank.
fn attempts_words(alloc: Global, appends: &[Vec<u8>]) -> Result<String, AllocError>
    ensures { IfOk result (λ words. string_bytes words ≡ codes " " ++ attempts_text (map (λ append. append.items) appends.now)) }
{
    let text = attempts_text(alloc, appends)?;
    format!(in alloc; " {text}")
}
