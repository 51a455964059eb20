//! The blocks of a journal: an open commit byte, a line, a line feed.
ghost use Rattle.std.specs.Prelude.{◌≡◌, ◌+◌, ◌≤◌, ◌++◌, [], ◌∷◌, ℕ, List, length, map, IfOk, IfSome, IfNone};
ghost use Rattle.amo_journal.specs.Logs.{records_of};
ghost use Rattle.amo_journal.specs.Texts.{texts_in, IsOneLine};

use std::alloc::{AllocError, Global};

/// Returns the lines of a journal without checksums, as version 0.1.0 wrote it, up to the first
/// commit byte that isn't open. A journal in this form is read and never written.
///
/// # Errors
///
/// `AllocError` if there was no memory.
pub fn texts_in(alloc: Global, bytes: &[u8]) -> Result<Vec<Vec<u8>>, AllocError>
    ensures exact { IfOk result (λ texts. records_of texts.items ≡ texts_in bytes.now) }
{
    let mut texts = Vec::new(alloc);
    let mut rest = bytes;
    while let Some((text, behind)) = first_block(rest) {
        texts.push(text.to_vec(alloc)?)?;
        rest = behind;
    }
    Ok(texts)
}

/// Returns the text of the block at the front, if there is one, and the bytes after the block.
pub(crate) fn first_block(bytes: &[u8]) -> Option<(&[u8], &[u8])>
    ensures found { IfSome result (λ x. bytes.now ≡ 43 ∷ x.0.now ++ 10 ∷ x.1.now) }
    ensures one_line { IfSome result (λ x. IsOneLine x.0.now) }
    ensures none { IfNone result (texts_in bytes.now ≡ []) }
    ensures unfinished { IfNone result ((line : List ℕ) → bytes.now ≡ 43 ∷ line → IsOneLine line) }
{
    let [b'+', after @ ..] = bytes else {
        return None;
    };
    first_line(after)
}

/// Returns the bytes before the first line feed, and those after it.
pub(crate) fn first_line(bytes: &[u8]) -> Option<(&[u8], &[u8])>
    ensures found { IfSome result (λ x. bytes.now ≡ x.0.now ++ 10 ∷ x.1.now) }
    ensures one_line { IfSome result (λ x. IsOneLine x.0.now) }
    ensures none { IfNone result (IsOneLine bytes.now) }
{
    for (i, b) in bytes.iter().enumerate() {
        if *b == b'\n' {
            return Some((&bytes[..i], &bytes[i + 1..]));
        }
    }
    None
}
