//! Answers of version 0.1.0, which noted no time for a doubt and for a command that did nothing.
ghost use Rattle.std.specs.Prelude.{◌≡◌, IfOk};
ghost use Rattle.amo_run_log.specs.OldAnswers.{old_answer_in, old_answer_of_word, with_time};

use crate::entry::{Outcome, code_of, print_answer};
use crate::numbers::{split_at_byte, two_of_bytes};
use amo_decimal::number_of_bytes;
use std::alloc::{AllocError, Global};

/// Returns the text of a journal of version 0.1.0 as it is written today. `doubt N` and
/// `untouched N CODE` get the time 0, which stands for a time that is not known. Any other text
/// stays as it is.
///
/// # Errors
///
/// An error if there was no memory.
pub fn with_time(alloc: Global, text: &[u8]) -> Result<Vec<u8>, AllocError>
    ensures { IfOk result (λ today. today.items ≡ with_time text.now) }
{
    match old_answer(text) {
        Some((serial, answer)) => print_answer(alloc, serial, answer)?
            .as_bytes()
            .to_vec(alloc),
        None => text.to_vec(alloc),
    }
}

/// Returns the answer that a text says without a time, and the serial number of its intent.
fn old_answer(text: &[u8]) -> Option<(u64, Outcome)>
    ensures { result ≡ old_answer_in text.now }
{
    let (word, rest) = split_at_byte(text, b' ')?;
    old_answer_of_word(word, rest)
}

fn old_answer_of_word(word: &[u8], rest: &[u8]) -> Option<(u64, Outcome)>
    ensures { result ≡ old_answer_of_word word.now rest.now }
{
    if word == b"doubt".as_slice() {
        let serial = number_of_bytes(rest)?;
        return Some((serial, Outcome::Doubt { time: 0 }));
    }
    if word == b"untouched".as_slice() {
        let (serial, code) = two_of_bytes(rest)?;
        let code = code_of(code)?;
        return Some((serial, Outcome::Untouched { code, time: 0 }));
    }
    None
}
