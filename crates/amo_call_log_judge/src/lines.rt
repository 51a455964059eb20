//! The lines of a text, and the words of a line.
ghost use Rattle.std.specs.Prelude.{◌≡◌, ◌<◌, IfOk, length, map};
ghost use Rattle.amo_call_log_judge.specs.Lines.{has_word, parts_of, words_of};

use std::alloc::{AllocError, Global};

/// Returns the parts of the text between its line feeds.
pub(crate) fn parts_of(alloc: Global, text: &[u8]) -> Result<Vec<&[u8]>, AllocError>
    ensures parts { IfOk result (λ parts. map (λ part. part.now) parts.items ≡ parts_of text.now) }
    ensures some { IfOk result (λ parts. 0 < length parts.items) }
{
    text.split(|b| *b == b'\n').collect(alloc)
}

/// Returns the words of a line, one blank between each two.
pub(crate) fn words_of(alloc: Global, line: &[u8]) -> Result<Vec<&[u8]>, AllocError>
    ensures { IfOk result (λ words. map (λ word. word.now) words.items ≡ words_of line.now) }
{
    line.split(|b| *b == b' ').collect(alloc)
}

/// Returns true if there are so many words, and the first is this one.
pub(crate) fn has_word(words: &[&[u8]], count: usize, word: &[u8]) -> bool
    requires { 0 < count }
    ensures { result ≡ has_word count word.now (map (λ word. word.now) words.now) }
{
    words.len() == count && words[0] == word
}
