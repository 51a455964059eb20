//! Showing what can be read of a run that is refused.
ghost use Rattle.std.specs.Prelude.{◌≡◌, ◌++◌, IfOk, OnOk, map, string_bytes};
ghost use Rattle.std.specs.List.Sorted.{IsPermutation};
ghost use Rattle.amo_run_views.specs.Named.{count_text, log_texts, named_by, named_by_append, named_from, named_in};

use crate::readable::{DamagedRun, ReadableLog, look_for_damage};
use amo_host_parts::print;
use amo_run_faults::{Fault, Item, Setting};
use amo_run_log::{Append, Entry};
use amo_system_calls::{Os, SystemCalls};
use std::alloc::{AllocError, Global};
use std::rt::HostRuntime;

/// An intent that can be read: its line, and whose it is.
type Named = (u64, u64, u64);

/// Prints the readable part of each file, and the file's fault. Prints for each line the attempts
/// at it, or that they aren't known.
///
/// # Errors
///
/// `DamagedRun` if something is wrong.
pub fn show_damage(rt: HostRuntime, setting: &Setting<'_>) -> Result<(), Fault> {
    let mut system = Os::new(rt);
    let run = look_for_damage(&mut system, setting)?;
    print_run(&mut system, &run)?;
    if run.is_damaged() {
        Err(Fault::DamagedRun)
    } else {
        Ok(())
    }
}

/// Prints the whole text.
fn print_run<S: SystemCalls>(system: &mut S, run: &DamagedRun) -> Result<(), Fault> {
    let text = damage_text(system.alloc(), run)?;
    print(system, &text)
}

/// Returns the whole text.
fn damage_text(alloc: Global, run: &DamagedRun) -> Result<Vec<u8>, AllocError> {
    let mut text = Vec::new(alloc);
    push_wrong(alloc, &mut text, Item::Record, &run.wrong_record)?;
    push_wrong(alloc, &mut text, Item::Known, &run.wrong_jobs)?;
    push_log(alloc, &mut text, Item::Answers, &run.answers)?;
    for (k, log) in run.journals.iter().enumerate() {
        push_log(alloc, &mut text, Item::Journal(k as u64 + 1), log)?;
    }
    let count = match &run.jobs {
        Some(jobs) => jobs.count(),
        None => 0,
    };
    push_lines(alloc, &mut text, count, &named_in(alloc, &run.journals)?)?;
    Ok(text)
}

/// Adds a line with the fault of a file, if it has one.
fn push_wrong(
    alloc: Global,
    text: &mut Vec<u8>,
    item: Item,
    wrong: &Option<Fault>,
) -> Result<(), AllocError> {
    if let Some(fault) = wrong {
        let why = short_text(alloc, fault)?;
        let line = format!(in alloc; "{item}: {why}\n")?;
        text.extend_from_slice(line.as_bytes())?;
    }
    Ok(())
}

/// Adds what can be read of a journal: how many appends, what is wrong, and the records. Nothing is
/// added if the journal has no readable append and nothing is wrong.
fn push_log(
    alloc: Global,
    text: &mut Vec<u8>,
    item: Item,
    log: &ReadableLog,
) -> Result<(), AllocError> {
    let count = appends_text(alloc, log.records.len())?;
    let line = match &log.wrong {
        None if log.records.is_empty() => return Ok(()),
        None => format!(in alloc; "{item}: {count}\n")?,
        Some(fault) => {
            let why = short_text(alloc, fault)?;
            match fault {
                Fault::Damaged(..) => format!(in alloc; "{item}: {count}, then damaged: {why}\n")?,
                _ => format!(in alloc; "{item}: {why}\n")?,
            }
        }
    };
    text.extend_from_slice(line.as_bytes())?;
    for records in &log.records {
        text.extend_from_slice(b"  ")?;
        text.extend_from_slice(records)?;
        text.push(b'\n')?;
    }
    Ok(())
}

/// Returns how many appends there are, in words.
fn appends_text(alloc: Global, count: usize) -> Result<String, AllocError>
    ensures { IfOk result (λ text. string_bytes text ≡ count_text count) }
{
    match count {
        1 => format!(in alloc; "1 append"),
        _ => format!(in alloc; "{count} appends"),
    }
}

/// Returns what is wrong, without a remedy.
fn short_text(alloc: Global, fault: &Fault) -> Result<String, AllocError> {
    match fault {
        Fault::Damaged(_, number, kind) => format!(in alloc; "append {number}: {kind}"),
        Fault::Lost(_, loss) => format!(in alloc; "{loss}"),
        Fault::Missing(_) => format!(in alloc; "missing"),
        Fault::Empty(_) => format!(in alloc; "empty"),
        Fault::Read(_, error) => format!(in alloc; "cannot be read: {error}"),
        _ => format!(in alloc; "damaged"),
    }
}

/// Returns the intents that can be read of the journals, in the order of their lines.
fn named_in(alloc: Global, journals: &[ReadableLog]) -> Result<Vec<Named>, AllocError>
    ensures { IfOk result (λ named. IsPermutation (named_from 1 (map log_texts journals.now)) named.items) }
{
    let mut named = Vec::new(alloc);
    for (k, log) in journals.iter().enumerate() {
        push_named(&mut named, k as u64 + 1, log)?;
    }
    named.sort_unstable();
    Ok(named)
}

/// Adds the intents of a worker.
fn push_named(named: &mut Vec<Named>, worker: u64, log: &ReadableLog) -> Result<(), AllocError>
    ensures { OnOk result (named.new.items ≡ named.old.items ++ named_in worker (log_texts log.now)) }
{
    for records in &log.records {
        push_append(named, worker, Append::read(records))?;
    }
    Ok(())
}

/// Adds the intents of a worker's append.
fn push_append(
    named: &mut Vec<Named>,
    worker: u64,
    append: Option<Append>,
) -> Result<(), AllocError>
    ensures { OnOk result (named.new.items ≡ named.old.items ++ named_by_append worker append) }
{
    match append {
        Some(Append::One(entry)) => push_intent(named, worker, entry),
        Some(Append::Two(first, second)) => {
            push_intent(named, worker, first)?;
            push_intent(named, worker, second)
        }
        None => Ok(()),
    }
}

/// Adds the entry, if it is an intent.
fn push_intent(named: &mut Vec<Named>, worker: u64, entry: Entry) -> Result<(), AllocError>
    ensures { OnOk result (named.new.items ≡ named.old.items ++ named_by worker entry) }
{
    match entry {
        Entry::Intent { serial, line, .. } if line > 0 => named.push((line, worker, serial))?,
        _ => {}
    }
    Ok(())
}

/// Adds a line of text for each line of the jobs, so many of them, and for each further one that an
/// intent names. A line that no intent names isn't called open: an intent that can't be read may be
/// of it.
fn push_lines(
    alloc: Global,
    text: &mut Vec<u8>,
    count: u64,
    named: &[Named],
) -> Result<(), AllocError> {
    let mut rest = named;
    for line in 1..=count {
        rest = push_line(alloc, text, line, rest)?;
    }
    let mut last = count;
    for (line, _, _) in named {
        if *line > last {
            last = *line;
            rest = push_line(alloc, text, last, rest)?;
        }
    }
    Ok(())
}

/// Adds the text of a line, and returns the intents of the lines after it.
fn push_line<'a>(
    alloc: Global,
    text: &mut Vec<u8>,
    line: u64,
    named: &'a [Named],
) -> Result<&'a [Named], AllocError> {
    let of_line = named.iter().take_while(|named| named.0 == line).count();
    let head = format!(in alloc; "line {line}:")?;
    text.extend_from_slice(head.as_bytes())?;
    if of_line == 0 {
        text.extend_from_slice(b" not known\n")?;
        return Ok(named);
    }
    text.extend_from_slice(b" attempted by")?;
    for (_, worker, serial) in &named[..of_line] {
        let name = format!(in alloc; " {worker}.{serial}")?;
        text.extend_from_slice(name.as_bytes())?;
    }
    text.push(b'\n')?;
    Ok(&named[of_line..])
}
