//! A line of JSON for a watcher.
ghost use Rattle.std.specs.Prelude.{◌≡◌, ◌++◌, true, false, string_bytes, IfOk, OnOk};
ghost use Rattle.amo_watch.specs.Lines.{comma_unless, counts_back, counts_front, counts_json, head_json, line_end, row_back, row_front, row_json, rows_json, watch_line};

use crate::outcome::time_in;
use crate::row::AttemptRow;
use crate::words::{code_json, outcome_word, round_json, time_json, watch_word};
use amo_status::Counts;
use std::alloc::{AllocError, Global};

/// The front of a line, before the counts.
#[derive(Clone, Copy)]
pub struct Head<'a> {
    /// The time, in seconds since 1970.
    pub time: u64,
    /// The id of the run: 32 hex digits.
    pub id: &'a str,
    /// The number of the last round, or 0 before the first one.
    pub round: u64,
    /// How many workers may share that round, or 0 before the first one.
    pub workers: u64,
}

/// Returns one JSON object and a line feed: the head, the number of lines of each status, and an
/// array for each of these attempts. An array has worker, serial number, line, the time of its
/// beginning, the outcome, the code, the time of its end, and the attempt's status.
///
/// # Errors
///
/// `AllocError` if there was no memory.
pub fn watch_line(
    alloc: Global,
    head: &Head<'_>,
    counts: &Counts,
    rows: &[AttemptRow],
) -> Result<Vec<u8>, AllocError>
    ensures { IfOk result (λ text. text.items ≡ watch_line head.now.time head.now.id.now head.now.round head.now.workers counts.now rows.now) }
{
    let mut text = Vec::new(alloc);
    push_head(&mut text, alloc, head)?;
    push_counts(&mut text, alloc, counts)?;
    push_rows(&mut text, alloc, rows)?;
    push_end(&mut text)?;
    Ok(text)
}

/// Adds the members of the head.
fn push_head(text: &mut Vec<u8>, alloc: Global, head: &Head<'_>) -> Result<(), AllocError>
    ensures { OnOk result (text.new.items ≡ text.old.items ++ head_json head.now.time head.now.id.now head.now.round head.now.workers) }
{
    let members = head_json(alloc, head)?;
    text.extend_from_slice(members.as_bytes())
}

/// Adds how many lines stand how.
fn push_counts(text: &mut Vec<u8>, alloc: Global, counts: &Counts) -> Result<(), AllocError>
    ensures { OnOk result (text.new.items ≡ text.old.items ++ counts_json counts.now) }
{
    let front = counts_front(alloc, counts)?;
    let back = counts_back(alloc, counts)?;
    text.extend_from_slice(front.as_bytes())?;
    text.extend_from_slice(back.as_bytes())
}

/// Adds the end of the line.
fn push_end(text: &mut Vec<u8>) -> Result<(), AllocError>
    ensures { OnOk result (text.new.items ≡ text.old.items ++ line_end) }
{
    text.extend_from_slice(b"]}\n")
}

/// Returns the members of the head.
fn head_json(alloc: Global, head: &Head<'_>) -> Result<String, AllocError>
    ensures { IfOk result (λ text. string_bytes text ≡ head_json head.now.time head.now.id.now head.now.round head.now.workers) }
{
    let time = head.time;
    let id = head.id;
    let round = round_json(alloc, head.round)?;
    let workers = round_json(alloc, head.workers)?;
    format!(in alloc;
        "{{\"format\":1,\"time\":{time},\"id\":\"{id}\",\"round\":{round},\"workers\":{workers}"
    )
}

/// Returns how many lines there are, and how many are done, failed and in doubt.
fn counts_front(alloc: Global, counts: &Counts) -> Result<String, AllocError>
    ensures { IfOk result (λ text. string_bytes text ≡ counts_front counts.now) }
{
    let lines = counts.lines;
    let done = counts.done;
    let failed = counts.failed;
    let doubt = counts.doubt;
    format!(in alloc; ",\"lines\":{lines},\"done\":{done},\"failed\":{failed},\"doubt\":{doubt}")
}

/// Returns how many are pending, untouched and open, and what stands before the attempts.
fn counts_back(alloc: Global, counts: &Counts) -> Result<String, AllocError>
    ensures { IfOk result (λ text. string_bytes text ≡ counts_back counts.now) }
{
    let pending = counts.running;
    let untouched = counts.untouched;
    let opened = counts.open;
    format!(in alloc;
        ",\"pending\":{pending},\"untouched\":{untouched},\"open\":{opened},\"attempts\":["
    )
}

/// Adds the arrays of these attempts, with a comma between each two.
fn push_rows(text: &mut Vec<u8>, alloc: Global, rows: &[AttemptRow]) -> Result<(), AllocError>
    ensures { OnOk result (text.new.items ≡ text.old.items ++ rows_json true rows.now) }
{
    let mut first = true;
    for row in rows {
        push_row(text, alloc, first, row)?;
        first = false;
    }
    Ok(())
}

/// Adds the array of an attempt, with a comma before it unless it is the first.
fn push_row(
    text: &mut Vec<u8>,
    alloc: Global,
    first: bool,
    row: &AttemptRow,
) -> Result<(), AllocError>
    ensures { OnOk result (text.new.items ≡ text.old.items ++ row_json first row.now) }
{
    let front = row_front(alloc, row)?;
    let back = row_back(alloc, row)?;
    text.extend_from_slice(comma_unless(first))?;
    text.extend_from_slice(front.as_bytes())?;
    text.extend_from_slice(back.as_bytes())
}

/// Returns a comma unless it is the first.
fn comma_unless(first: bool) -> &'static [u8]
    ensures { result.now ≡ comma_unless first }
{
    if first { b"" } else { b"," }
}

/// Returns the front of an attempt's array.
fn row_front(alloc: Global, row: &AttemptRow) -> Result<String, AllocError>
    ensures { IfOk result (λ text. string_bytes text ≡ row_front row.now) }
{
    let worker = row.worker;
    let serial = row.serial;
    let line = row.line;
    let begun = time_json(alloc, row.begun)?;
    format!(in alloc; "[{worker},{serial},{line},{begun},")
}

/// Returns the back of an attempt's array.
fn row_back(alloc: Global, row: &AttemptRow) -> Result<String, AllocError>
    ensures { IfOk result (λ text. string_bytes text ≡ row_back row.now) }
{
    let outcome = outcome_word(row.outcome);
    let code = code_json(alloc, row.outcome)?;
    let ended = time_json(alloc, time_in(row.outcome))?;
    let state = watch_word(row.state);
    format!(in alloc; "\"{outcome}\",{code},{ended},\"{state}\"]")
}
