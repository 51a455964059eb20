//! The status of a run, the lines of one status, and the doubts, as texts.
ghost use Rattle.std.specs.Prelude.{◌≡◌, ◌≤◌, ◌++◌, codes, length, map, IfOk, OnOk};
ghost use Rattle.amo_status.specs.Rows.{doubt_row, kind_row, line_end, rows_from, spaced, status_text};

use crate::count::Counts;
use crate::heading::{Style, push_counts};
use crate::rows::{Form, push_rows};
use crate::standing::LineStatus;
use crate::state::State;
use std::alloc::{AllocError, Global};

/// Returns the status of a run: the counts, a line of the workers that are alive, and a row for
/// each line that is in doubt, untouched or running. A row is `STATE P.S LINE TEXT`. The text of
/// the line k + 1 stands at k, without an end.
///
/// # Errors
///
/// `AllocError` if there was no memory.
pub fn status_text(
    alloc: Global,
    counts: &Counts,
    alive: &[u64],
    standings: &[LineStatus],
    texts: &[&[u8]],
) -> Result<Vec<u8>, AllocError>
    requires { length standings.now ≤ length texts.now }
    ensures { IfOk result (λ text. text.items ≡ status_text counts.now alive.now standings.now (map (λ t. t.now) texts.now)) }
{
    let mut text = Vec::new(alloc);
    push_counts(&mut text, alloc, Style::Words, counts)?;
    text.push(b'\n')?;
    push_alive(&mut text, alloc, alive)?;
    push_rows(&mut text, alloc, Form::Status, standings, texts)?;
    Ok(text)
}

/// Returns a row for each line of this status: the intent as `P.S`, the line's number, and its
/// text, a tab between each two. An open line has `-` for the intent. Such a row with a tab and
/// `done` or `not-done` after it can be read by `read_answers`.
///
/// # Errors
///
/// `AllocError` if there was no memory.
pub fn lines_text(
    alloc: Global,
    kind: State,
    standings: &[LineStatus],
    texts: &[&[u8]],
) -> Result<Vec<u8>, AllocError>
    requires { length standings.now ≤ length texts.now }
    ensures { IfOk result (λ text. text.items ≡ rows_from (kind_row kind) 0 standings.now (map (λ t. t.now) texts.now)) }
{
    let mut text = Vec::new(alloc);
    push_rows(&mut text, alloc, Form::Kind(kind), standings, texts)?;
    Ok(text)
}

/// Returns a row for each line that is in doubt, `doubt P.S LINE TEXT TIME AGE`. TIME is when it
/// was begun, and AGE how many seconds ago it ended by a clock that shows `now`. AGE is `unknown`
/// if no record says when it ended, and `ahead` if that is later than `now`.
///
/// # Errors
///
/// `AllocError` if there was no memory.
pub fn doubts_text(
    alloc: Global,
    now: u64,
    standings: &[LineStatus],
    texts: &[&[u8]],
) -> Result<Vec<u8>, AllocError>
    requires { length standings.now ≤ length texts.now }
    ensures { IfOk result (λ text. text.items ≡ rows_from (doubt_row now) 0 standings.now (map (λ t. t.now) texts.now)) }
{
    let mut text = Vec::new(alloc);
    push_rows(&mut text, alloc, Form::Doubts(now), standings, texts)?;
    Ok(text)
}

/// Adds the line of the workers that are alive.
fn push_alive(text: &mut Vec<u8>, alloc: Global, alive: &[u64]) -> Result<(), AllocError>
    ensures { OnOk result (text.new.items ≡ text.old.items ++ (codes "alive" ++ (spaced alive.now ++ line_end))) }
{
    text.extend_from_slice(b"alive")?;
    push_spaced(text, alloc, alive)?;
    text.push(b'\n')?;
    Ok(())
}

/// Adds the numbers, each after a blank.
fn push_spaced(text: &mut Vec<u8>, alloc: Global, numbers: &[u64]) -> Result<(), AllocError>
    ensures { OnOk result (text.new.items ≡ text.old.items ++ spaced numbers.now) }
{
    for number in numbers {
        let word = format!(in alloc; " {number}")?;
        text.extend_from_slice(word.as_bytes())?;
    }
    Ok(())
}
