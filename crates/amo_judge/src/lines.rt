//! The lines of a text, and the words of a line.
ghost use Rattle.std.specs.Prelude.{◌≡◌, ◌<◌, ◌≤◌, IfOk, length, map};
ghost use Rattle.amo_judge.specs.Lines.{without_last_feed, split_lines, lines_of, words_of, says_at, ends_history, told};

use std::alloc::{AllocError, Global};

/// Returns the text without the line feed at its end, if it has one there.
fn without_last_feed(text: &[u8]) -> &[u8]
    ensures { result.now ≡ without_last_feed text.now }
{
    let count = text.len();
    if count > 0 && text[count - 1] == b'\n' {
        return &text[..count - 1];
    }
    text
}

/// Returns the parts between the line feeds.
fn split_lines(alloc: Global, text: &[u8]) -> Result<Vec<&[u8]>, AllocError>
    ensures { IfOk result (λ lines. map (λ line. line.now) lines.items ≡ split_lines text.now) }
{
    text.split(|b| *b == b'\n').collect(alloc)
}

/// Returns the lines of a text. The last line may lack its end.
pub(crate) fn lines_of(alloc: Global, text: &[u8]) -> Result<Vec<&[u8]>, AllocError>
    ensures { IfOk result (λ lines. map (λ line. line.now) lines.items ≡ lines_of text.now) }
{
    split_lines(alloc, without_last_feed(text))
}

/// Returns the words of a line, which one blank separates.
pub(crate) fn words_of(alloc: Global, line: &[u8]) -> Result<Vec<&[u8]>, AllocError>
    ensures { IfOk result (λ words. map (λ word. word.now) words.items ≡ words_of line.now) }
{
    line.split(|b| *b == b' ').collect(alloc)
}

/// Returns true if the word at this place is this one.
pub(crate) fn says_at(words: &[&[u8]], place: usize, text: &[u8]) -> bool
    requires { place < length words.now }
    ensures { result ≡ says_at (map (λ word. word.now) words.now) place text.now }
{
    words[place] == text
}

/// Returns true if the line ends the history.
fn ends_history(line: &[u8]) -> bool
    ensures { result ≡ ends_history line.now }
{
    line.starts_with(b"worker ")
}

/// Returns the number of lines with events: those before the first that ends the history.
pub(crate) fn told(lines: &[&[u8]]) -> usize
    ensures is { result ≡ told (map (λ line. line.now) lines.now) }
    ensures within { result ≤ length lines.now }
{
    for (i, line) in lines.iter().enumerate() {
        if ends_history(line) {
            return i;
        }
    }
    lines.len()
}
