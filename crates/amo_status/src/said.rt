//! Answers of persons, in a file or in the words of a command.
ghost use Rattle.std.specs.Fmt.{decimal};
ghost use Rattle.std.specs.Prelude.{◌≡◌, ◌==◌, ◌<◌, ◌^◌, ℕ, Some, length, map, option_map, position, IfOk, IfErr, IfSome, IfNone};
ghost use Rattle.amo_run_log.specs.declared.finding.Resolution.{Resolution as VerdictView};
ghost use Rattle.amo_run_log.specs.Findings.{verdict_in, word_of};
ghost use Rattle.amo_run_log.specs.Numbers.{read_all};
ghost use Rattle.amo_status.specs.Said.{IsRefused, before_end, intent_in, intent_text, lines_in, place_in, said_by, said_in, split_at, verdict_behind, words_in};

use crate::state::AttemptId;
use amo_decimal::number_of_bytes;
use amo_run_log::{Fault, Resolution};
use std::alloc::{AllocError, Global};
use std::mem;

/// An answer of a person: to the intent of this worker and serial number, of this line, with this
/// text.
#[derive(Debug, PartialEq, Eq, Drop)]
pub struct Said {
    pub worker: u64,
    pub serial: u64,
    pub line: u64,
    pub text: Vec<u8>,
    pub verdict: Resolution,
}

/// Returns the answers of a file, a line each: the intent as `P.S`, the number of its line, the
/// line's text, and `done` or `not-done`, a tab between each two. The text may hold tabs. The last
/// line may lack its end.
///
/// # Errors
///
/// `Refused` with the number of the first line that isn't an answer. `Memory` if there was no
/// memory.
pub fn read_answers(alloc: Global, bytes: &[u8]) -> Result<Vec<Said>, Fault>
    ensures exact { IfOk result (λ said. read_all said_in (lines_in bytes.now) ≡ Some (map said_by said.items)) }
    ensures refused { IfErr result (IsRefused (lines_in bytes.now)) }
{
    let lines = lines_of(alloc, bytes)?;
    said_on(alloc, &lines)
}

/// Returns the answer of each line.
fn said_on(alloc: Global, lines: &[Vec<u8>]) -> Result<Vec<Said>, Fault>
    ensures exact { IfOk result (λ said. read_all said_in (map (λ line. line.items) lines.now) ≡ Some (map said_by said.items)) }
    ensures refused { IfErr result (IsRefused (map (λ line. line.items) lines.now)) }
{
    let mut said = Vec::new(alloc);
    for line in lines {
        let Some(one) = said_of(alloc, line)? else {
            return Err(Fault::Refused(said.len() + 1));
        };
        said.push(one)?;
    }
    Ok(said)
}

/// Returns the lines of a file.
fn lines_of(alloc: Global, bytes: &[u8]) -> Result<Vec<Vec<u8>>, AllocError>
    ensures { IfOk result (λ lines. map (λ line. line.items) lines.items ≡ lines_in bytes.now) }
{
    let mut lines = Vec::new(alloc);
    let mut begun = Vec::new(alloc);
    for b in bytes {
        if *b == b'\n' {
            let line = mem::replace(&mut begun, Vec::new(alloc));
            lines.push(line)?;
        } else {
            begun.push(*b)?;
        }
    }
    if !begun.is_empty() {
        lines.push(begun)?;
    }
    Ok(lines)
}

/// Returns the answer of a line.
fn said_of(alloc: Global, bytes: &[u8]) -> Result<Option<Said>, AllocError>
    ensures { IfOk result (λ found. option_map said_by found ≡ said_in bytes.now) }
{
    let Some((intent, rest)) = split_at(bytes, b'\t') else {
        return Ok(None);
    };
    let Some((line, rest)) = split_at(rest, b'\t') else {
        return Ok(None);
    };
    let Some((text, verdict)) = verdict_behind(rest) else {
        return Ok(None);
    };
    let Some((intent, line)) = place_of(intent, line) else {
        return Ok(None);
    };
    let text = text.to_vec(alloc)?;
    let AttemptId { worker, serial } = intent;
    Ok(Some(Said {
        worker,
        serial,
        line,
        text,
        verdict,
    }))
}

/// Returns the answer of three words of a command: the intent as `P.S`, the number of its line, and
/// `done` or `not-done`.
pub fn read_one(intent: &str, line: &str, verdict: &str) -> Option<(AttemptId, u64, Resolution)>
    ensures exact { result ≡ words_in intent.now line.now verdict.now }
    // The answer that is read has this text.
    ensures found { IfSome result (λ said. (intent_text said.0.worker said.0.serial ≡ intent.now) × (decimal said.1 ≡ line.now) × (word_of said.2 ≡ verdict.now)) }
    // The text of an answer is read.
    ensures none { IfNone result ((worker serial number : ℕ) (v : VerdictView) → worker < 2 ^ 64 → serial < 2 ^ 64 → number < 2 ^ 64
        → intent_text worker serial ≡ intent.now → decimal number ≡ line.now → word_of v ≡ verdict.now → ⊥) }
{
    words_of(intent.as_bytes(), line.as_bytes(), verdict.as_bytes())
}

fn words_of(intent: &[u8], line: &[u8], verdict: &[u8]) -> Option<(AttemptId, u64, Resolution)>
    ensures { result ≡ words_in intent.now line.now verdict.now }
{
    let (intent, line) = place_of(intent, line)?;
    let verdict = verdict_of(verdict)?;
    Some((intent, line, verdict))
}

/// Returns the intent and the line that these name.
fn place_of(intent: &[u8], line: &[u8]) -> Option<(AttemptId, u64)>
    ensures { result ≡ place_in intent.now line.now }
{
    let intent = intent_of(intent)?;
    let line = number_of_bytes(line)?;
    Some((intent, line))
}

fn intent_of(text: &[u8]) -> Option<AttemptId>
    ensures { result ≡ intent_in text.now }
{
    let (worker, serial) = split_at(text, b'.')?;
    let worker = number_of_bytes(worker)?;
    let serial = number_of_bytes(serial)?;
    Some(AttemptId { worker, serial })
}

fn verdict_of(word: &[u8]) -> Option<Resolution>
    ensures { result ≡ verdict_in word.now }
{
    if word == b"done".as_slice() {
        return Some(Resolution::Done);
    }
    if word == b"not-done".as_slice() {
        return Some(Resolution::NotDone);
    }
    None
}

/// Returns the verdict at the end of the text, and the text before it.
fn verdict_behind(text: &[u8]) -> Option<(&[u8], Resolution)>
    ensures { option_map (λ p. (p.0.now, p.1)) result ≡ verdict_behind text.now }
{
    if let Some(before) = before_end(text, b"\tdone") {
        return Some((before, Resolution::Done));
    }
    let before = before_end(text, b"\tnot-done")?;
    Some((before, Resolution::NotDone))
}

/// Returns the text before this ending.
fn before_end<'a>(text: &'a [u8], ending: &[u8]) -> Option<&'a [u8]>
    ensures { option_map (λ before. before.now) result ≡ before_end ending.now text.now }
{
    if text.len() < ending.len() {
        return None;
    }
    let at = text.len() - ending.len();
    if &text[at..] != ending {
        return None;
    }
    Some(&text[..at])
}

/// Returns the text before the first such byte, and the text after it.
#[tactic(auto, using(crate::proofs::SaidTexts::found_at, crate::proofs::SaidTexts::found_nowhere))]
fn split_at(text: &[u8], byte: u8) -> Option<(&[u8], &[u8])>
    ensures { option_map (λ p. (p.0.now, p.1.now)) result ≡ split_at byte text.now }
{
    let Some(at) = place_of_byte(text, byte) else {
        return None;
    };
    Some((&text[..at], &text[at + 1..]))
}

/// Returns the place of the first such byte.
fn place_of_byte(text: &[u8], byte: u8) -> Option<usize>
    ensures place { result ≡ position (λ b. b == byte) text.now }
    ensures within { IfSome result (λ at. at < length text.now) }
{
    text.iter().position(|b| *b == byte)
}
