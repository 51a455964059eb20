//! The head of a round's words.
ghost use Rattle.std.specs.Prelude.{◌≡◌, length, option_map, IfOk, IfSome};
ghost use Rattle.amo_run_files.specs.Records.{said_by};
ghost use Rattle.amo_run_files.specs.Heads.{head_text, filled_up, head_of};
ghost use Rattle.amo_run_files.specs.declared.head.TheConstants.{HEAD_LEN};

use crate::header::RoundHeader;
use crate::seats::RoundParams;
use std::alloc::{AllocError, Global};

/// How many bytes stand before the first word.
pub(crate) const HEAD_LEN: usize = 512;

/// Returns the `HEAD_LEN` bytes at the front of the words of the round with this header. They name
/// the round. Blanks and a line feed follow. Returns `None` if the boot id is so long that it
/// doesn't fit.
///
/// # Errors
///
/// `AllocError` if there was no memory.
pub fn head_of(alloc: Global, recorded: &RoundHeader) -> Result<Option<Vec<u8>>, AllocError>
    ensures exact { IfOk result (λ head. option_map (λ bytes. bytes.items) head ≡ head_of (said_by recorded.now)) }
    ensures size { IfOk result (λ head. IfSome head (λ bytes. length bytes.items ≡ HEAD_LEN)) }
{
    let text = head_text(alloc, recorded)?;
    filled_up(text)
}

/// Returns the lines at the front of the head.
fn head_text(alloc: Global, recorded: &RoundHeader) -> Result<Vec<u8>, AllocError>
    ensures { IfOk result (λ text. text.items ≡ head_text (said_by recorded.now)) }
{
    let RoundParams {
        jobs,
        workers,
        beta,
    } = recorded.givens;
    let round = format!(in alloc; "amo-words 2\nround {}\nboot ", recorded.round)?;
    let givens = format!(in alloc; "\ngivens {jobs} {workers} {beta}\n")?;
    let mut text = Vec::new(alloc);
    text.extend_from_slice(round.as_bytes())?;
    text.extend_from_slice(&recorded.boot)?;
    text.extend_from_slice(givens.as_bytes())?;
    Ok(text)
}

/// Returns the text, with blanks and a line feed after it, if they have room.
fn filled_up(mut text: Vec<u8>) -> Result<Option<Vec<u8>>, AllocError>
    ensures exact { IfOk result (λ head. option_map (λ bytes. bytes.items) head ≡ filled_up text.items) }
    ensures size { IfOk result (λ head. IfSome head (λ bytes. length bytes.items ≡ HEAD_LEN)) }
{
    if text.len() >= HEAD_LEN {
        return Ok(None);
    }
    text.resize(HEAD_LEN - 1, b' ')?;
    text.push(b'\n')?;
    Ok(Some(text))
}
