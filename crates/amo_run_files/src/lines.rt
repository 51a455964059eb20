//! The places of the lines in a file.
ghost use Rattle.std.specs.Prelude.{◌≡◌, ◌<◌, ◌≤◌, ℕ, List, [], length, take, slice_index_or, IfOk};
ghost use Rattle.amo_run_log.specs.Texts.{ended};
ghost use Rattle.amo_run_files.specs.Lines.{lines_in, remainder_in, ends_of};

use std::alloc::{AllocError, Global};

/// Returns the end of each line, after its line feed.
pub(crate) fn ends_in(alloc: Global, bytes: &[u8]) -> Result<Vec<usize>, AllocError>
    ensures { IfOk result (λ ends. ends.items ≡ ends_of 0 (lines_in bytes.now)) }
{
    let mut ends = Vec::new(alloc);
    for (i, b) in bytes.iter().enumerate() {
        if *b == b'\n' {
            ends.push(i + 1)?;
        }
    }
    Ok(ends)
}

/// Returns the end of the last of the lines with these ends, or 0.
pub(crate) fn last_end(ends: &[usize]) -> usize
    ensures { (lines : List (List ℕ)) → ends.now ≡ ends_of 0 lines → result ≡ length (ended lines) }
{
    ends.last().copied().unwrap_or(0)
}

/// Returns the beginning of the line at this index, among lines with these ends.
fn start_of(ends: &[usize], i: usize) -> usize
    requires { i < length ends.now }
    ensures { (lines : List (List ℕ)) → ends.now ≡ ends_of 0 lines → result ≡ length (ended (take i lines)) }
{
    if i == 0 {
        return 0;
    }
    ends[i - 1]
}

/// Returns the line at this index, without its end.
pub(crate) fn line_at<'a>(bytes: &'a [u8], ends: &[usize], i: usize) -> &'a [u8]
    requires ends { ends.now ≡ ends_of 0 (lines_in bytes.now) }
    requires there { i < length ends.now }
    ensures { result.now ≡ slice_index_or (lines_in bytes.now) i [] }
{
    let start = start_of(ends, i);
    let end = ends[i];
    &bytes[start..end - 1]
}

/// Returns the bytes after the last line.
pub(crate) fn remainder_of<'a>(bytes: &'a [u8], ends: &[usize]) -> &'a [u8]
    requires { ends.now ≡ ends_of 0 (lines_in bytes.now) }
    ensures { result.now ≡ remainder_in bytes.now }
{
    let (_, rest) = bytes.split_at(last_end(ends));
    rest
}
