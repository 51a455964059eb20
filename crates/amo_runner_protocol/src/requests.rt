//! The messages of a worker to its partner, as lines.
ghost use Rattle.std.specs.Prelude.{◌≡◌, IfOk};
ghost use Rattle.amo_runner_protocol.specs.Sayings.{job_line, over_text, perform_text, was_text};

use std::alloc::{AllocError, Global};

/// Returns the line that asks the partner to perform a job, with its end. The serial number is that
/// of the intent. The number is that of its line in the jobs' file, and the text is that line,
/// without its end.
///
/// # Errors
///
/// `AllocError` if there was no memory.
pub fn perform_text(
    alloc: Global,
    serial: u64,
    line: u64,
    text: &[u8],
) -> Result<Vec<u8>, AllocError>
    ensures { IfOk result (λ said. said.items ≡ perform_text serial line text.now) }
{
    job_line(alloc, "perform", serial, line, text)
}

/// Returns the line that asks the partner for the result of a job which a former process of the
/// worker has begun, with its end.
///
/// # Errors
///
/// `AllocError` if there was no memory.
pub fn was_text(alloc: Global, serial: u64, line: u64, text: &[u8]) -> Result<Vec<u8>, AllocError>
    ensures { IfOk result (λ said. said.items ≡ was_text serial line text.now) }
{
    job_line(alloc, "was", serial, line, text)
}

/// Returns the line by which a worker reports that its part of the round is over and that it stays
/// for the next one, if the runner agrees. The line feed is part of it.
pub fn over_text() -> &'static [u8]
    ensures { result.now ≡ over_text }
{
    b"over\n".as_slice()
}

/// Returns a line that begins with this word.
fn job_line(
    alloc: Global,
    word: &str,
    serial: u64,
    line: u64,
    text: &[u8],
) -> Result<Vec<u8>, AllocError>
    ensures { IfOk result (λ said. said.items ≡ job_line word.now serial line text.now) }
{
    let head = format!(in alloc; "{word} {serial} {line} ")?;
    let mut said = head.into_bytes();
    said.extend_from_slice(text)?;
    said.push(b'\n')?;
    Ok(said)
}
