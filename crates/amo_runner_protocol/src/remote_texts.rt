//! The lines of a worker that has everything done by lines.
ghost use Rattle.std.specs.Prelude.{◌≡◌, IfOk};
ghost use Rattle.amo_runner_protocol.specs.Lines.{note_text, text_of};

use amo_driver::{JobResult, Try};
use std::alloc::{AllocError, Global};

/// Returns the line of a try, with its end. The serial number of an intent counts within the life
/// of one process.
///
/// # Errors
///
/// `AllocError` if there was no memory.
pub fn text_of(alloc: Global, asked: Try) -> Result<Vec<u8>, AllocError>
    ensures { IfOk result (λ said. said.items ≡ text_of asked) }
{
    let text = match asked {
        Try::Load(word) => format!(in alloc; "load {word}\n")?,
        Try::Store(word, value) => format!(in alloc; "store {word} {value}\n")?,
        Try::Find(job) => format!(in alloc; "found {job}\n")?,
        Try::Intend(serial, job) => format!(in alloc; "intend {serial} {job}\n")?,
        Try::Clear(serial, job) => format!(in alloc; "clear {serial} {job}\n")?,
        Try::Perform(serial, job) => format!(in alloc; "perform {serial} {job}\n")?,
        Try::Note(serial, answer) => note_text(alloc, serial, answer)?,
        Try::Ask(serial, line) => format!(in alloc; "was {serial} {line}\n")?,
    };
    Ok(text.into_bytes())
}

fn note_text(alloc: Global, serial: u64, answer: JobResult) -> Result<String, AllocError>
    ensures { IfOk result (λ said. said.bytes.items ≡ note_text serial answer) }
{
    match answer {
        JobResult::Done(code) => format!(in alloc; "note done {serial} {code}\n"),
        JobResult::Doubt => format!(in alloc; "note doubt {serial}\n"),
        JobResult::Unbegun => format!(in alloc; "note unbegun {serial}\n"),
        JobResult::Untouched(code) => format!(in alloc; "note untouched {serial} {code}\n"),
    }
}
