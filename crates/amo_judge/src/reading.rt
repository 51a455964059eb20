//! Reads a history line by line.
ghost use Rattle.std.specs.Prelude.{◌≡◌, IfOk, map};
ghost use Rattle.amo_judge.specs.History.{first_history, with_lines, lines_behind, history_in};

use crate::first_line::{Opening, opening_in};
use crate::history::History;
use crate::lines::{told, words_of};
use crate::refusal::{Refusal, Wrong};
use std::alloc::{AllocError, Global};

/// Returns the history with the event of each of these lines.
fn with_lines<'a>(
    alloc: Global,
    opening: Opening,
    lines: &[&'a [u8]],
) -> Result<Result<History<'a>, Refusal>, AllocError>
    ensures { IfOk result (λ read. read ≡ with_lines (first_history opening) (map (λ line. line.now) lines.now)) }
{
    let mut history = History::new(alloc, opening);
    for (i, line) in lines.iter().enumerate() {
        if let Some(wrong) = history.add(alloc, line)? {
            return Ok(Err(Refusal { line: i + 2, wrong }));
        }
    }
    Ok(Ok(history))
}

/// Returns the history of the lines after the first, up to the one that ends it.
fn lines_behind<'a>(
    alloc: Global,
    opening: Opening,
    behind: &[&'a [u8]],
) -> Result<Result<History<'a>, Refusal>, AllocError>
    ensures { IfOk result (λ read. read ≡ lines_behind opening (map (λ line. line.now) behind.now)) }
{
    let (front, _) = behind.split_at(told(behind));
    with_lines(alloc, opening, front)
}

/// Returns the history of these lines, up to the first that ends it.
pub(crate) fn read_history<'a>(
    alloc: Global,
    lines: &[&'a [u8]],
) -> Result<Result<History<'a>, Refusal>, AllocError>
    ensures { IfOk result (λ read. read ≡ history_in (map (λ line. line.now) lines.now)) }
{
    let Some((first, behind)) = lines.split_first() else {
        return Ok(Err(Refusal {
            line: 1,
            wrong: Wrong::NoFirstLine,
        }));
    };
    let words = words_of(alloc, first)?;
    match opening_in(&words) {
        Err(wrong) => Ok(Err(Refusal { line: 1, wrong })),
        Ok(opening) => lines_behind(alloc, opening, behind),
    }
}
