//! The record of a round: under which givens it is, and of which lines its jobs are.
ghost use Rattle.std.specs.Prelude.{◌≡◌, ◌+◌, ◌++◌, ◌∷◌, [], codes, ◌<◌, ◌≤◌, ◌-◌, length, map, slice_index_or, option_map, IfOk, OnOk};
ghost use Rattle.std.specs.Fmt.{decimal};
ghost use Rattle.std.specs.Str.{bytes_eq};
ghost use Rattle.amo_decimal.specs.Numbers.{number_in};
ghost use Rattle.amo_run_log.specs.Numbers.{read_all};
ghost use Rattle.amo_run_log.specs.Texts.{ended};
ghost use Rattle.amo_run_files.specs.Records.{said_by, text_of_record, ascends_from, is_sound, texts_from, labelled, head_in, record_behind, record_of};

use crate::seats::RoundParams;
use amo_decimal::number_of_bytes;
use amo_params::{MAX_BETA, MAX_JOBS, MAX_WORKERS};
use amo_run_log::{three_of_bytes, two_of_bytes};
use std::alloc::{AllocError, Global};
use std::mem;

/// `RoundHeader`: the record of a round when it is begun.
#[derive(Debug, PartialEq, Eq, Drop)]
pub struct RoundHeader {
    /// Rounds are counted from 1.
    pub round: u64,
    /// The id that the machine had since it was started, in one line.
    pub boot: Vec<u8>,
    /// The jobs, how many workers share them, and the threshold.
    pub givens: RoundParams,
    /// How many workers there may be, 1 to 16.
    pub workers: u64,
    /// The worker that began the round.
    pub first: u64,
    /// The line of each job, from job 1 on.
    pub lines: Vec<u64>,
}

impl RoundHeader {
    /// Returns the lines of the record, as one text.
    pub(crate) fn print(&self, alloc: Global) -> Result<Vec<u8>, AllocError>
        ensures { IfOk result (λ text. text.items ≡ text_of_record (said_by self.now)) }
    {
        let mut text = self.print_head(alloc)?;
        for line in &self.lines {
            let number = format!(in alloc; "{line}")?;
            push(&mut text, number.as_bytes())?;
        }
        Ok(text)
    }

    /// Returns the line of this job.
    pub fn line_of(&self, job: usize) -> u64
        requires job { (1 ≤ job) × (job ≤ length self.now.lines.items) }
        ensures { result ≡ slice_index_or self.now.lines.items (job - 1) 0 }
    {
        self.lines[job - 1]
    }

    /// Returns the texts before those of the lines.
    fn print_head(&self, alloc: Global) -> Result<Vec<u8>, AllocError>
        ensures { IfOk result (λ text. text.items ++ ended (map (λ line. decimal line) self.now.lines.items) ≡ text_of_record (said_by self.now)) }
    {
        let RoundParams {
            jobs,
            workers,
            beta,
        } = self.givens;
        let round = format!(in alloc; "{}", self.round)?;
        let givens = format!(in alloc; "{jobs} {workers} {beta}")?;
        let sharing = format!(in alloc; "{} {}", self.workers, self.first)?;
        let mut text = Vec::new(alloc);
        push(&mut text, b"amo-run 2")?;
        push_labelled(&mut text, b"round ", round.as_bytes())?;
        push_labelled(&mut text, b"boot ", &self.boot)?;
        push_labelled(&mut text, b"givens ", givens.as_bytes())?;
        push_labelled(&mut text, b"workers ", sharing.as_bytes())?;
        Ok(text)
    }
}

/// Adds a line that begins with a label, and its end.
fn push_labelled(text: &mut Vec<u8>, label: &[u8], line: &[u8]) -> Result<(), AllocError>
    ensures { OnOk result (text.new.items ≡ text.old.items ++ (label.now ++ (line.now ++ 10 ∷ []))) }
{
    text.extend_from_slice(label)?;
    push(text, line)
}

/// Adds a line and its end.
pub(crate) fn push(text: &mut Vec<u8>, line: &[u8]) -> Result<(), AllocError>
    ensures { OnOk result (text.new.items ≡ text.old.items ++ (line.now ++ 10 ∷ [])) }
{
    text.extend_from_slice(line)?;
    text.push(b'\n')?;
    Ok(())
}

/// Returns the texts of a file in which each ends by a line feed.
pub(crate) fn texts_of(alloc: Global, bytes: &[u8]) -> Result<Option<Vec<Vec<u8>>>, AllocError>
    ensures { IfOk result (λ found. option_map (λ texts. map (λ text. text.items) texts.items) found ≡ texts_from bytes.now []) }
{
    let mut texts = Vec::new(alloc);
    let mut begun = Vec::new(alloc);
    for b in bytes {
        if *b == b'\n' {
            let text = mem::replace(&mut begun, Vec::new(alloc));
            texts.push(text)?;
        } else {
            begun.push(*b)?;
        }
    }
    if begun.is_empty() {
        Ok(Some(texts))
    } else {
        Ok(None)
    }
}

/// Returns the record that texts say.
pub(crate) fn record_of(alloc: Global, texts: &[Vec<u8>]) -> Result<Option<RoundHeader>, AllocError>
    ensures { IfOk result (λ found. option_map said_by found ≡ record_of (map (λ text. text.items) texts.now)) }
{
    if texts.len() < 5 {
        return Ok(None);
    }
    if !is_version(text_at(texts, 0)) {
        return Ok(None);
    }
    let round = text_at(texts, 1);
    let boot = text_at(texts, 2);
    let givens = text_at(texts, 3);
    let workers = text_at(texts, 4);
    record_behind(alloc, round, boot, givens, workers, &texts[5..])
}

/// Returns true if a record begins so that is read here.
fn is_version(text: &[u8]) -> bool
    ensures { result ≡ bytes_eq text.now (codes "amo-run 2") }
{
    text == b"amo-run 2".as_slice()
}

/// Returns the record that these texts say, after the text of the version.
fn record_behind(
    alloc: Global,
    round: &[u8],
    boot: &[u8],
    givens: &[u8],
    workers: &[u8],
    lines: &[Vec<u8>],
) -> Result<Option<RoundHeader>, AllocError>
    ensures { IfOk result (λ found. option_map said_by found ≡ record_behind round.now boot.now givens.now workers.now (map (λ text. text.items) lines.now)) }
{
    let Some((round, givens, workers, first)) = head_of(round, givens, workers) else {
        return Ok(None);
    };
    let Some(boot) = labelled(b"boot ", boot) else {
        return Ok(None);
    };
    let Some(lines) = numbers_of(alloc, lines)? else {
        return Ok(None);
    };
    let boot = boot.to_vec(alloc)?;
    let record = RoundHeader {
        round,
        boot,
        givens,
        workers,
        first,
        lines,
    };
    if !is_sound(&record) {
        return Ok(None);
    }
    Ok(Some(record))
}

/// Returns the text at this index.
fn text_at(texts: &[Vec<u8>], i: usize) -> &[u8]
    requires { i < length texts.now }
    ensures { result.now ≡ slice_index_or (map (λ text. text.items) texts.now) i [] }
{
    &texts[i]
}

/// Returns the round, the givens, the workers, and the first of them.
fn head_of(round: &[u8], givens: &[u8], workers: &[u8]) -> Option<(u64, RoundParams, u64, u64)>
    ensures { result ≡ head_in round.now givens.now workers.now }
{
    let round = number_of_bytes(labelled(b"round ", round)?)?;
    let (jobs, shared, beta) = three_of_bytes(labelled(b"givens ", givens)?)?;
    let (workers, first) = two_of_bytes(labelled(b"workers ", workers)?)?;
    let givens = RoundParams {
        jobs,
        workers: shared,
        beta,
    };
    Some((round, givens, workers, first))
}

/// Returns the bytes after this label.
fn labelled<'a>(label: &[u8], text: &'a [u8]) -> Option<&'a [u8]>
    ensures { option_map (λ behind. behind.now) result ≡ labelled label.now text.now }
{
    if text.len() < label.len() || &text[..label.len()] != label {
        return None;
    }
    Some(&text[label.len()..])
}

/// Returns the numbers that the texts say, if each says one.
fn numbers_of(alloc: Global, texts: &[Vec<u8>]) -> Result<Option<Vec<u64>>, AllocError>
    ensures { IfOk result (λ found. option_map (λ numbers. numbers.items) found ≡ read_all number_in (map (λ text. text.items) texts.now)) }
{
    let mut numbers = Vec::new(alloc);
    for text in texts {
        let Some(number) = number_of_bytes(text) else {
            return Ok(None);
        };
        numbers.push(number)?;
    }
    Ok(Some(numbers))
}

fn is_sound(candidate: &RoundHeader) -> bool
    ensures { result ≡ is_sound (said_by candidate.now) }
{
    let RoundParams {
        jobs,
        workers,
        beta,
    } = candidate.givens;
    (jobs == candidate.lines.len() as u64 && (jobs <= MAX_JOBS as u64 && ascends(&candidate.lines)))
        && ((1 <= workers
            && (workers <= candidate.workers && candidate.workers <= MAX_WORKERS as u64))
            && ((workers <= beta && beta <= MAX_BETA as u64)
                && (1 <= candidate.first && candidate.first <= candidate.workers)))
}

/// Returns true if each line is greater than the one before it, and the first than 0.
fn ascends(lines: &[u64]) -> bool
    ensures { result ≡ ascends_from 0 lines.now }
{
    let mut low = 0;
    for line in lines {
        if *line <= low {
            return false;
        }
        low = *line;
    }
    true
}
