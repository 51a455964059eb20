//! The journal that entries are: its intents, each with its outcome.
ghost use Rattle.std.specs.Prelude.{◌≡◌, ◌++◌, true, false, Some, None, IfOk, IfErr, OnOk, OnErr, map};
ghost use Rattle.amo_run_log.specs.Entries.{append_in, entries_in, entries_of_append, entries_of_appends};
ghost use Rattle.amo_run_log.specs.Faults.{SaysNothing};
ghost use Rattle.amo_run_log.specs.Journals.{answered_to, attempts_in, is_line, journal_of, pending_from, NotesAllOrNot, NotesOrNot, IsRefused, IsRefusedAppend};
ghost use Rattle.amo_run_log.specs.declared.entry.Entry.TheVariants.{Intent};

use crate::append::Append;
use crate::entry::{Entry, Outcome};
use crate::fault::Fault;
use crate::reading::read_each;
use std::alloc::{AllocError, Global};

/// An intent, with its outcome if it has one. Its serial number is its place in the journal, from
/// 1.
#[derive(Clone, Copy, Debug, PartialEq, Eq)]
pub struct Attempt {
    /// The line of the jobs' file, from 1.
    pub line: u64,
    /// The time of the intent, in seconds since 1970.
    pub time: u64,
    /// The outcome, if it is known.
    pub answer: Option<Outcome>,
}

/// Reads each text of a journal as an append, and returns the entries of all of them.
///
/// # Errors
///
/// `Refused` with the number of the first text that isn't an append. `Memory` if there was no
/// memory.
pub fn read_entries(alloc: Global, texts: &[Vec<u8>]) -> Result<Vec<Entry>, Fault>
    ensures exact { IfOk result (λ entries. entries_in (map (λ text. text.items) texts.now) ≡ Some entries.items) }
    ensures refused { IfErr result (SaysNothing append_in (map (λ text. text.items) texts.now)) }
{
    let appends = read_each(alloc, texts)?;
    Ok(entries_of(alloc, &appends)?)
}

/// Returns the entries of these appends, in order.
fn entries_of(alloc: Global, appends: &[Append]) -> Result<Vec<Entry>, AllocError>
    ensures { IfOk result (λ entries. entries.items ≡ entries_of_appends appends.now) }
{
    let mut entries = Vec::new(alloc);
    for append in appends {
        push_append(&mut entries, *append)?;
    }
    Ok(entries)
}

/// Adds the entries of an append.
fn push_append(entries: &mut Vec<Entry>, append: Append) -> Result<(), AllocError>
    ensures { OnOk result (entries.new.items ≡ entries.old.items ++ entries_of_append append) }
{
    match append {
        Append::One(entry) => entries.push(entry)?,
        Append::Two(first, second) => {
            entries.push(first)?;
            entries.push(second)?;
        }
    }
    Ok(())
}

/// Reads the appends of a journal, of a jobs' file that has so many lines, and returns its
/// attempts.
///
/// # Errors
///
/// `Refused` with the number of the first append that is invalid, or whose entries may not follow
/// those before it. `Memory` if there was no memory.
pub fn read_attempts(alloc: Global, count: u64, texts: &[Vec<u8>]) -> Result<Vec<Attempt>, Fault>
    ensures exact { IfOk result (λ attempts. attempts_in count (map (λ text. text.items) texts.now) ≡ Some attempts.items) }
    ensures refused { IfErr result (IsRefusedAppend count (map (λ text. text.items) texts.now)) }
{
    let mut noted = Vec::new(alloc);
    for (i, text) in texts.iter().enumerate() {
        let Some(append) = Append::read(text) else {
            return Err(Fault::Refused(i + 1));
        };
        if !note_append(count, &mut noted, append)? {
            return Err(Fault::Refused(i + 1));
        }
    }
    Ok(noted)
}

/// Returns the attempts of these entries, of a jobs' file that has so many lines.
///
/// # Errors
///
/// `Refused` with the number of the first entry that may not follow those before it. Its serial
/// number is out of turn, or its line doesn't exist, or it answers an intent that isn't pending.
/// `Memory` if there was no memory.
pub fn journal_of(alloc: Global, count: u64, entries: &[Entry]) -> Result<Vec<Attempt>, Fault>
    ensures exact { IfOk result (λ attempts. journal_of count entries.now ≡ Some attempts.items) }
    ensures refused { IfErr result (IsRefused count entries.now) }
{
    let mut attempts = Vec::new(alloc);
    for (i, entry) in entries.iter().enumerate() {
        if !note(count, &mut attempts, *entry)? {
            return Err(Fault::Refused(i + 1));
        }
    }
    Ok(attempts)
}

/// Notes one entry more, and returns true if it may follow those that were noted. An entry that may
/// not changes nothing.
///
/// # Errors
///
/// `AllocError` if there was no memory. Then nothing changed.
pub fn note(count: u64, attempts: &mut Vec<Attempt>, entry: Entry) -> Result<bool, AllocError>
    ensures noted { IfOk result (λ noted. NotesOrNot count noted attempts.old.items entry attempts.new.items) }
    ensures refused { OnErr result (attempts.new.items ≡ attempts.old.items) }
{
    match entry {
        Entry::Intent { serial, line, time } => begin(count, attempts, serial, line, time),
        Entry::Answer { serial, answer } => Ok(settle(attempts, serial, answer)),
    }
}

/// Notes the entries of an append, and returns true if they may follow those that were noted. If
/// they may not, or if there was no memory, the first of two may have been noted: the attempts are
/// those of no journal then.
pub(crate) fn note_append(
    count: u64,
    attempts: &mut Vec<Attempt>,
    append: Append,
) -> Result<bool, AllocError>
    ensures noted { IfOk result (λ noted. NotesAllOrNot count noted attempts.old.items append attempts.new.items) }
{
    match append {
        Append::One(entry) => note(count, attempts, entry),
        Append::Two(first, second) => {
            if note(count, attempts, first)? {
                note(count, attempts, second)
            } else {
                Ok(false)
            }
        }
    }
}

/// Notes an intent.
fn begin(
    count: u64,
    attempts: &mut Vec<Attempt>,
    serial: u64,
    line: u64,
    time: u64,
) -> Result<bool, AllocError>
    ensures noted { IfOk result (λ noted. NotesOrNot count noted attempts.old.items (Intent serial line time) attempts.new.items) }
    ensures refused { OnErr result (attempts.new.items ≡ attempts.old.items) }
{
    if serial == 0 || serial - 1 != attempts.len() as u64 || !is_line(count, line) {
        return Ok(false);
    }
    attempts.push(Attempt {
        line,
        time,
        answer: None,
    })?;
    Ok(true)
}

/// Returns true if it is one of the lines 1..count.
fn is_line(count: u64, line: u64) -> bool
    ensures { result ≡ is_line count line }
{
    1 <= line && line <= count
}

/// Notes an outcome. Returns false if it may not be noted.
fn settle(attempts: &mut [Attempt], serial: u64, answer: Outcome) -> bool
    ensures noted { result ≡ true → answered_to attempts.old serial answer ≡ Some attempts.new }
    ensures refused { result ≡ false → answered_to attempts.old serial answer ≡ None }
    ensures stays { result ≡ false → attempts.new ≡ attempts.old }
{
    if serial == 0 || serial > attempts.len() as u64 {
        return false;
    }
    let at = (serial - 1) as usize;
    if attempts[at].answer.is_some() {
        return false;
    }
    attempts[at].answer = Some(answer);
    true
}

/// Returns the serial numbers and lines of the intents without an outcome, in order.
///
/// # Errors
///
/// `AllocError` if there was no memory.
pub fn pending(alloc: Global, attempts: &[Attempt]) -> Result<Vec<(u64, u64)>, AllocError>
    ensures { IfOk result (λ found. found.items ≡ pending_from 1 attempts.now) }
{
    let mut found = Vec::new(alloc);
    for (i, attempt) in attempts.iter().enumerate() {
        if attempt.answer.is_none() {
            found.push((i as u64 + 1, attempt.line))?;
        }
    }
    Ok(found)
}
