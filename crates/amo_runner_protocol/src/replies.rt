//! The replies of a partner, as lines.
ghost use Rattle.std.specs.Prelude.{◌≡◌, ◌≢◌, Some, IfSome};
ghost use Rattle.amo_driver.specs.declared.answer.Reply.{Reply as ReplyView};
ghost use Rattle.amo_driver.specs.declared.answer.Way.{Way as WayView};
ghost use Rattle.amo_runner_protocol.specs.Replies.{text_of, Fits, word_of, way_in, number_and_way_in, code_and_way_in, reply_of_word, said_in, reply_in};

use amo_decimal::number;
use amo_driver::{JobResult, Reply, Way};
use amo_run_log::code_of;
use std::str;

/// Returns the reply of a line, which is given without its end. An invalid line is `Garbled`.
pub fn reply_in(said: &[u8]) -> Reply
    ensures exact { result ≡ reply_in said.now }
    // The reply that is read has this text.
    ensures heard { IfSome (text_of result) (λ text. text ≡ said.now) }
    // The text of a reply is read as that reply.
    ensures was_said { (reply : ReplyView) → Fits reply → text_of reply ≡ Some said.now → result ≡ reply }
    // No line means that the partner is gone.
    ensures somebody { result ≢ Reply.Closed }
{
    reply_of_bytes(said)
}

/// Returns the answer to `over` that a line says, without its end: the worker stays for the next
/// round, or leaves. Returns `None` if the line is invalid.
pub fn over_reply_in(said: &[u8]) -> Option<Way>
    ensures exact { result ≡ way_in said.now }
    // Each answer that is read was printed so.
    ensures heard { IfSome result (λ way. word_of way ≡ said.now) }
    // Each answer that was printed is read.
    ensures was_said { (way : WayView) → word_of way ≡ said.now → result ≡ Some way }
{
    way_of(said)
}

/// Returns the reply that the bytes say. Bytes that are not UTF-8 are an invalid reply.
#[tactic(auto, using(crate::proofs::ReplyTexts::no_text))]
fn reply_of_bytes(said: &[u8]) -> Reply
    ensures { result ≡ reply_in said.now }
{
    match str::from_utf8(said) {
        Ok(text) => reply_of(text).unwrap_or(Reply::Garbled),
        Err(_) => Reply::Garbled,
    }
}

fn reply_of(text: &str) -> Option<Reply>
    ensures { result ≡ said_in text.now }
{
    let (word, rest) = text.split_once(' ')?;
    reply_of_word(word, rest)
}

fn reply_of_word(word: &str, rest: &str) -> Option<Reply>
    ensures { result ≡ reply_of_word word.now rest.now }
{
    match word {
        "done" => {
            let (serial, code, way) = code_and_way(rest)?;
            Some(Reply::Answered(serial, JobResult::Done(code), way))
        }
        "doubt" => {
            let (serial, way) = number_and_way(rest)?;
            Some(Reply::Answered(serial, JobResult::Doubt, way))
        }
        "unbegun" => {
            let (serial, way) = number_and_way(rest)?;
            Some(Reply::Answered(serial, JobResult::Unbegun, way))
        }
        "untouched" => {
            let (serial, code, way) = code_and_way(rest)?;
            Some(Reply::Answered(serial, JobResult::Untouched(code), way))
        }
        "running" => {
            let (serial, way) = number_and_way(rest)?;
            Some(Reply::Running(serial, way))
        }
        _ => None,
    }
}

/// Returns the number, the code and the way that the text says.
fn code_and_way(text: &str) -> Option<(u64, u8, Way)>
    ensures { result ≡ code_and_way_in text.now }
{
    let (serial, rest) = text.split_once(' ')?;
    let serial = number(serial)?;
    let (code, way) = number_and_way(rest)?;
    let code = code_of(code)?;
    Some((serial, code, way))
}

/// Returns the number and the way that the text says.
fn number_and_way(text: &str) -> Option<(u64, Way)>
    ensures { result ≡ number_and_way_in text.now }
{
    let (serial, way) = text.split_once(' ')?;
    let serial = number(serial)?;
    let way = way_of(way.as_bytes())?;
    Some((serial, way))
}

fn way_of(word: &[u8]) -> Option<Way>
    ensures { result ≡ way_in word.now }
{
    if word == b"go".as_slice() {
        Some(Way::Go)
    } else if word == b"leave".as_slice() {
        Some(Way::Leave)
    } else {
        None
    }
}
