//! Texts as a line shows them: as they are, or by their length and SHA-256.
ghost use Rattle.std.specs.Prelude.{◌≡◌, map, option_map, string_bytes, IfOk};
ghost use Rattle.std.specs.List.{list_all};
ghost use Rattle.hex.specs.Hex.{encode_lower};
ghost use Rattle.sha2.specs.Sha256.{sha256};
ghost use Rattle.amo_call_log.specs.Shown.{attempts_text, attempts_words, is_plain, is_printed, last_line, lines_text, measured, readable, said_text, shown, three_words, without_line_feeds};

use amo_run_log::{Attempt, Fault as Misread, read_attempts};
use hex::encode;
use sha2::{Digest, Sha256};
use std::alloc::{AllocError, Global};

/// The longest text that a line shows. Of a longer one it has the length and the SHA-256.
const LONGEST: usize = 200;

/// The most lines that a list could have: which lines there are isn't asked.
const MOST_LINES: u64 = u64::MAX;

/// Returns a text as it is, or its length and SHA-256 if it is long or has other bytes than ASCII
/// has for words.
#[tactic(auto, using(crate::proofs::Readable::plain_is_readable))]
pub(crate) fn shown(alloc: Global, bytes: &[u8]) -> Result<String, AllocError>
    ensures { IfOk result (λ text. string_bytes text ≡ shown bytes.now) }
{
    if is_plain(bytes) {
        return String::from_str(alloc, readable(bytes));
    }
    measured(alloc, bytes)
}

/// Returns true if a line may show the text as it is.
fn is_plain(bytes: &[u8]) -> bool
    ensures { result ≡ is_plain bytes.now }
{
    bytes.len() <= LONGEST && are_printed(bytes)
}

/// Returns true if each byte is a blank, or one that ASCII prints.
fn are_printed(bytes: &[u8]) -> bool
    ensures { result ≡ list_all is_printed bytes.now }
{
    bytes.iter().all(|b| is_printed(*b))
}

/// Returns true if the byte is a blank, or one that ASCII prints.
fn is_printed(byte: u8) -> bool
    ensures { result ≡ is_printed byte }
{
    b' ' <= byte && byte <= b'~'
}

/// Returns the length of a text, and its SHA-256.
fn measured(alloc: Global, bytes: &[u8]) -> Result<String, AllocError>
    ensures { IfOk result (λ text. string_bytes text ≡ measured bytes.now) }
{
    let len = bytes.len();
    let digest = encode(alloc, Sha256::digest(bytes))?;
    format!(in alloc; "{len} {digest}")
}

/// Returns the text, or none of it if it isn't UTF-8.
#[tactic(auto, using(crate::proofs::Readable::readings))]
fn readable(bytes: &[u8]) -> &str
    ensures { result.now ≡ readable bytes.now }
{
    match str::from_utf8(bytes) {
        Ok(text) => text,
        Err(_) => "",
    }
}

/// Returns the text of a line to the runner: its first three words, and the length and the SHA-256
/// of the rest. A line of fewer words is shown whole.
pub(crate) fn said_text(alloc: Global, line: &[u8]) -> Result<String, AllocError>
    ensures { IfOk result (λ text. string_bytes text ≡ said_text line.now) }
{
    let text = readable(without_line_feeds(line));
    match three_words(text) {
        Some((first, second, third, rest)) => {
            let rest = measured(alloc, rest.as_bytes())?;
            format!(in alloc; "{first} {second} {third} {rest}")
        }
        None => shown(alloc, text.as_bytes()),
    }
}

/// Returns a line without the line feeds at its end.
#[tactic(auto, using(crate::proofs::LineFeeds::endings))]
fn without_line_feeds(line: &[u8]) -> &[u8]
    ensures { result.now ≡ without_line_feeds line.now }
{
    let mut len = line.len();
    'ending: while len > 0 {
        if line[len - 1] != b'\n' {
            return &line[..len];
        }
        len -= 1;
    }
    &line[..0]
}

/// Returns the first three words of a text and the rest of it. Returns `None` if it has no rest.
fn three_words(text: &str) -> Option<(&str, &str, &str, &str)>
    ensures { option_map (λ parts. (parts.0.now, parts.1.now, parts.2.now, parts.3.now)) result ≡ three_words text.now }
{
    let (first, rest) = text.split_once(' ')?;
    let (second, rest) = rest.split_once(' ')?;
    let (third, rest) = rest.split_once(' ')?;
    Some((first, second, third, rest))
}

/// Returns how many attempts these appends of a journal say, the line of the last one, and the
/// SHA-256 of all their lines.
pub(crate) fn attempts_text(alloc: Global, appends: &[Vec<u8>]) -> Result<String, AllocError>
    ensures { IfOk result (λ text. string_bytes text ≡ attempts_text (map (λ append. append.items) appends.now)) }
{
    match read_attempts(alloc, MOST_LINES, appends) {
        Ok(attempts) => attempts_words(alloc, &attempts),
        Err(Misread::Memory) => Err(AllocError),
        Err(Misread::Refused(_)) => String::from_str(alloc, "refused"),
    }
}

/// Returns how many attempts there are, the line of the last one, and the SHA-256 of all their
/// lines.
fn attempts_words(alloc: Global, attempts: &[Attempt]) -> Result<String, AllocError>
    ensures { IfOk result (λ text. string_bytes text ≡ attempts_words attempts.now) }
{
    let count = attempts.len();
    let last = last_line(attempts);
    let digest = lines_digest(alloc, attempts)?;
    format!(in alloc; "{count} {last} {digest}")
}

/// Returns the line of the last attempt, or 0.
fn last_line(attempts: &[Attempt]) -> u64
    ensures { result ≡ last_line attempts.now }
{
    match attempts.last() {
        Some(attempt) => attempt.line,
        None => 0,
    }
}

/// Returns the SHA-256 of the lines of these attempts, each with a blank after it.
fn lines_digest(alloc: Global, attempts: &[Attempt]) -> Result<String, AllocError>
    ensures { IfOk result (λ text. string_bytes text ≡ encode_lower (sha256 (lines_text attempts.now))) }
{
    let mut hasher = Sha256::new();
    'hashing: for attempt in attempts {
        let line = attempt.line;
        hasher.update(format!(in alloc; "{line} ")?.as_bytes());
    }
    encode(alloc, hasher.finalize())
}
