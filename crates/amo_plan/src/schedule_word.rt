//! The words of a schedule, each read on its own.
ghost use Rattle.std.specs.Prelude.{◌≡◌, ◌<◌, length, IfSome, IsTrue, position, slice_index};
ghost use Rattle.amo_plan.specs.Passing.{Gives};
ghost use Rattle.amo_plan.specs.Schedule.{is_asterisk, is_x, is_l, number_of, turns_word, word_of, worker_of, word_at, moves_of_word};

use crate::digits::number_within;
use crate::fault::PlanFault;
use crate::limits::HIGHEST_IN_WORD;

/// A word of a schedule.
#[derive(Clone, Copy, Debug, PartialEq, Eq)]
pub(crate) enum ScheduleWord {
    /// This number of turns (second) of a worker (first).
    Turns(u32, u32),
    /// A halt of a worker.
    Stop(u32),
    /// A leave of a worker.
    Departure(u32),
}

impl ScheduleWord {
    /// How many moves it is.
    pub(crate) fn count(&self) -> u32
        ensures { result ≡ length (moves_of_word self.now) }
    {
        match self {
            ScheduleWord::Turns(_, count) => *count,
            ScheduleWord::Stop(_) => 1,
            ScheduleWord::Departure(_) => 1,
        }
    }

    /// The worker that it names.
    pub(crate) fn worker(&self) -> u32
        ensures { result ≡ worker_of self.now }
    {
        match self {
            ScheduleWord::Turns(worker, _) => *worker,
            ScheduleWord::Stop(worker) => *worker,
            ScheduleWord::Departure(worker) => *worker,
        }
    }
}

/// A number of 1 to `HIGHEST_IN_WORD`.
#[tactic(auto, unfolding(crate::specs::Schedule::number_of))]
fn number(text: &[u8]) -> Option<u32>
    ensures { result ≡ number_of text.now }
{
    let number = number_within(1, HIGHEST_IN_WORD, text)?;
    Some(number as u32)
}

/// Where the first asterisk stands.
fn asterisk_at(text: &[u8]) -> Option<usize>
    ensures place { result ≡ position is_asterisk text.now }
    ensures within { IfSome result (λ i. i < length text.now) }
{
    text.iter().position(|b| *b == b'*')
}

/// Turns of a worker: a number, or two parted by an asterisk.
#[tactic(auto, unfolding(crate::specs::Schedule::turns_word))]
fn read_turns(text: &[u8]) -> Option<ScheduleWord>
    ensures { result ≡ turns_word text.now }
{
    match asterisk_at(text) {
        None => Some(ScheduleWord::Turns(number(text)?, 1)),
        Some(at) => {
            let (front, _) = text.split_at(at);
            let (_, back) = text.split_at(at + 1);
            let worker = number(front)?;
            let count = number(back)?;
            Some(ScheduleWord::Turns(worker, count))
        }
    }
}

/// It begins with x.
fn begins_with_x(text: &[u8]) -> bool
    ensures test { result ≡ is_x (slice_index text.now 0) }
    ensures some { IsTrue result → 0 < length text.now }
{
    !text.is_empty() && text[0] == b'x'
}

/// It begins with l, which is for version 2 alone.
fn begins_with_l(version: u32, text: &[u8]) -> bool
    ensures test { result ≡ is_l version (slice_index text.now 0) }
    ensures some { IsTrue result → 0 < length text.now }
{
    version == 2 && !text.is_empty() && text[0] == b'l'
}

/// Returns the word that this text is, if it is valid.
#[tactic(auto, unfolding(crate::specs::Schedule::word_of))]
fn read_word(version: u32, text: &[u8]) -> Option<ScheduleWord>
    ensures { result ≡ word_of version text.now }
{
    if begins_with_x(text) {
        let (_, rest) = text.split_at(1);
        return Some(ScheduleWord::Stop(number(rest)?));
    }
    if begins_with_l(version, text) {
        let (_, rest) = text.split_at(1);
        return Some(ScheduleWord::Departure(number(rest)?));
    }
    read_turns(text)
}

/// Returns the word in this place, of the workers up to so many.
#[tactic(auto, unfolding(crate::specs::Schedule::word_at))]
pub(crate) fn word_at(
    version: u32,
    workers: u32,
    place: u32,
    text: &[u8],
) -> Result<ScheduleWord, PlanFault>
    ensures { Gives (λ w. w) result (word_at version workers place text.now) }
{
    match read_word(version, text) {
        None => Err(PlanFault::BadScheduleWord(place)),
        Some(word) if word.worker() > workers => Err(PlanFault::NoSuchWorker(place)),
        Some(word) => Ok(word),
    }
}
