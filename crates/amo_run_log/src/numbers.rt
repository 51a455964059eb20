//! Two and three numbers in a text.
ghost use Rattle.std.specs.Prelude.{◌≡◌, ◌<◌, ◌==◌, true, false, position, length, IfSome, IfNone};
ghost use Rattle.std.specs.List.{after_first, before_first};
ghost use Rattle.amo_run_log.specs.Numbers.{has_byte, two_in, three_in};

use amo_decimal::number;
use std::str;

/// Returns the three numbers that a text says, one blank between each two and nothing else. Each is
/// read as by `number`.
pub(crate) fn three(text: &str) -> Option<(u64, u64, u64)>
    ensures { result ≡ three_in text.now }
{
    let (a, rest) = text.split_once(' ')?;
    let a = number(a)?;
    let (b, c) = two(rest)?;
    Some((a, b, c))
}

/// Returns the two numbers that a text says, one blank between them and nothing else. Each is read
/// as by `number`.
pub(crate) fn two(text: &str) -> Option<(u64, u64)>
    ensures { result ≡ two_in text.now }
{
    let (a, b) = text.split_once(' ')?;
    Some((number(a)?, number(b)?))
}

/// Returns the two numbers that the bytes say.
#[tactic(auto, using(crate::proofs::Words::two_no_text))]
pub fn two_of_bytes(bytes: &[u8]) -> Option<(u64, u64)>
    ensures { result ≡ two_in bytes.now }
{
    match str::from_utf8(bytes) {
        Ok(text) => two(text),
        Err(_) => None,
    }
}

/// Returns the three numbers that the bytes say.
#[tactic(auto, using(crate::proofs::Words::three_no_text))]
pub fn three_of_bytes(bytes: &[u8]) -> Option<(u64, u64, u64)>
    ensures { result ≡ three_in bytes.now }
{
    match str::from_utf8(bytes) {
        Ok(text) => three(text),
        Err(_) => None,
    }
}

/// Returns the bytes before the first of this byte in the text, and those after it.
pub(crate) fn split_at_byte(text: &[u8], byte: u8) -> Option<(&[u8], &[u8])>
    ensures some { IfSome result (λ p. (has_byte byte text.now ≡ true) × (p.0.now ≡ before_first (λ b. b == byte) text.now) × (p.1.now ≡ after_first (λ b. b == byte) text.now)) }
    ensures none { IfNone result (has_byte byte text.now ≡ false) }
{
    let at = place_of_byte(text, byte)?;
    Some((&text[..at], &text[at + 1..]))
}

/// Returns how many bytes stand before the first of this byte.
fn place_of_byte(text: &[u8], byte: u8) -> Option<usize>
    ensures place { result ≡ position (λ b. b == byte) text.now }
    ensures within { IfSome result (λ at. at < length text.now) }
{
    text.iter().position(|b| *b == byte)
}
