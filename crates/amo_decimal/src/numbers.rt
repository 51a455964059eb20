//! Reading a number in decimal digits.
ghost use Rattle.std.specs.Prelude.{◌≡◌};
ghost use Rattle.amo_decimal.specs.Numbers.{begins_strictly, number_in};

use std::str;

/// Returns the number below 2 to the 64 that a text says, or `None`. The text has digits alone, and
/// no 0 before others. So an empty text, one with a sign and one with a blank say no number.
#[tactic(auto, using(crate::proofs::NumberTexts::number_is, crate::proofs::NumberTexts::number_isnt))]
pub fn number(text: &str) -> Option<u64>
    ensures { result ≡ number_in text.now }
{
    if !begins_strictly(text.as_bytes()) {
        return None;
    }
    text.parse::<u64>().ok()
}

/// Returns true if the bytes begin with a digit from 1 on, or are 0 alone.
fn begins_strictly(text: &[u8]) -> bool
    ensures { result ≡ begins_strictly text.now }
{
    !text.is_empty() && (text[0] > b'0' || (text[0] == b'0' && text.len() == 1))
}

/// Returns the number that the bytes say, as `number` reads it. Bytes that are not UTF-8 say none.
#[tactic(auto, using(crate::proofs::NumberTexts::number_no_text))]
pub fn number_of_bytes(bytes: &[u8]) -> Option<u64>
    ensures { result ≡ number_in bytes.now }
{
    match str::from_utf8(bytes) {
        Ok(text) => number(text),
        Err(_) => None,
    }
}
