//! The first line of a history: its givens, and whether workers and jobs have names.
ghost use Rattle.std.specs.Prelude.{◌≡◌, true, length, map};
ghost use Rattle.std.specs.Option.{is_some};
ghost use Rattle.amo_decimal.specs.Numbers.{number_in};
ghost use Rattle.amo_judge.specs.FirstLine.{numbers_of, with_bound, ending_of, has_givens, opening_of, has_blocks, opening_of_blocks, opening_in};

use crate::lines::says_at;
use crate::refusal::Wrong;
use amo_decimal::number_of_bytes;
use amo_params::Givens;

/// The content of a first line.
#[derive(Clone, Copy, Debug, PartialEq, Eq)]
pub(crate) struct Opening {
    pub(crate) givens: Givens,
    /// True if workers and jobs have names, and not numbers.
    pub(crate) named: bool,
}

/// Returns the givens of these three words, each of them a number.
fn numbers_of(jobs: &[u8], workers: &[u8], beta: &[u8]) -> Result<Givens, Wrong>
    ensures { result ≡ numbers_of jobs.now workers.now beta.now }
{
    let jobs = number_of_bytes(jobs).ok_or(Wrong::NoFirstLine)?;
    let workers = number_of_bytes(workers).ok_or(Wrong::NoFirstLine)?;
    let beta = number_of_bytes(beta).ok_or(Wrong::NoFirstLine)?;
    match Givens::try_new(jobs, workers, beta) {
        Ok(givens) => Ok(givens),
        Err(fault) => Err(Wrong::NoGivens(fault)),
    }
}

fn with_bound(givens: Givens, said: u64) -> Result<bool, Wrong>
    ensures { result ≡ with_bound givens said }
{
    let bound = givens.bound();
    if said != bound as u64 {
        return Err(Wrong::OtherBound(bound));
    }
    Ok(false)
}

/// Returns true if there are names, by the words after the threshold.
fn ending_of(givens: Givens, words: &[&[u8]]) -> Result<bool, Wrong>
    ensures { result ≡ ending_of givens (map (λ word. word.now) words.now) }
{
    if words.is_empty() {
        return Ok(false);
    }
    if words.len() == 1 && says_at(words, 0, b"names") {
        return Ok(true);
    }
    if words.len() == 2 && says_at(words, 0, b"bound") {
        let said = number_of_bytes(words[1]).ok_or(Wrong::NoFirstLine)?;
        return with_bound(givens, said);
    }
    Err(Wrong::NoFirstLine)
}

fn has_givens(label: &[u8], words: &[&[u8]]) -> bool
    ensures { result ≡ has_givens label.now (map (λ word. word.now) words.now) }
{
    words.len() >= 6
        && says_at(words, 0, label)
        && says_at(words, 2, b"workers")
        && says_at(words, 4, b"beta")
}

fn opening_of(label: &[u8], words: &[&[u8]]) -> Result<Opening, Wrong>
    ensures { result ≡ opening_of label.now (map (λ word. word.now) words.now) }
{
    if !has_givens(label, words) {
        return Err(Wrong::NoFirstLine);
    }
    let givens = numbers_of(words[1], words[3], words[5])?;
    let named = ending_of(givens, &words[6..])?;
    Ok(Opening { givens, named })
}

fn is_number(word: &[u8]) -> bool
    ensures { result ≡ is_some (number_in word.now) }
{
    number_of_bytes(word).is_some()
}

#[tactic(auto, unfolding(crate::specs::FirstLine::has_blocks))]
fn has_blocks(words: &[&[u8]]) -> bool
    ensures is { result ≡ has_blocks (map (λ word. word.now) words.now) }
    ensures long { result ≡ true → length words.now ≡ 12 }
{
    words.len() == 12
        && says_at(words, 0, b"jobs")
        && is_number(words[1])
        && says_at(words, 2, b"block")
        && is_number(words[3])
}

/// Returns the opening that the first line of a report over blocks says.
fn opening_of_blocks(words: &[&[u8]]) -> Result<Opening, Wrong>
    requires { length words.now ≡ 12 }
    ensures { result ≡ opening_of_blocks (map (λ word. word.now) words.now) }
{
    opening_of(b"blocks", &words[4..])
}

/// Returns the opening that a first line of these words says.
pub(crate) fn opening_in(words: &[&[u8]]) -> Result<Opening, Wrong>
    ensures { result ≡ opening_in (map (λ word. word.now) words.now) }
{
    if has_blocks(words) {
        return opening_of_blocks(words);
    }
    opening_of(b"jobs", words)
}
