//! Reading of a schedule.
ghost use Rattle.std.specs.Prelude.{◌≡◌, ◌++◌, map, replicate, IfOk, OnOk};
ghost use Rattle.amo_params.specs.declared.moves.Move.TheVariants.{Turn};
ghost use Rattle.amo_plan.specs.Passing.{Gives};
ghost use Rattle.amo_plan.specs.Schedule.{is_space, words_of, read_words, moves_of_word, short_moves_of, read_schedule};

use crate::fault::PlanFault;
use crate::limits::MOST_MOVES;
use crate::ordinal::ordinal_of;
use crate::schedule_word::{ScheduleWord, word_at};
use amo_params::Move;
use std::alloc::{AllocError, Global};

/// The byte parts words: space, tab, LF or CR, and no other.
fn is_space(b: u8) -> bool
    ensures { result ≡ is_space b }
{
    b == b' ' || b == b'\t' || b == b'\n' || b == b'\r'
}

/// The words of a text.
fn words(alloc: Global, text: &[u8]) -> Result<Vec<&[u8]>, AllocError>
    ensures { IfOk result (λ v. map (λ w. w.now) v.items ≡ words_of text.now) }
{
    text.split(|b| is_space(*b))
        .filter(|w| !w.is_empty())
        .collect(alloc)
}

/// Returns the words of the schedule, for workers up to this number.
#[tactic(auto, using(crate::proofs::PassingLemmas::each_more, crate::proofs::PassingLemmas::each_stop, crate::proofs::PassingLemmas::each_all, crate::proofs::PassingLemmas::each_none))]
fn read_words(
    alloc: Global,
    version: u32,
    workers: u32,
    words: &[&[u8]],
) -> Result<Vec<ScheduleWord>, PlanFault>
    ensures { Gives (λ v. v.items) result (read_words version workers (map (λ w. w.now) words.now)) }
{
    let mut read = Vec::with_capacity(alloc, words.len())?;
    for (i, text) in words.iter().enumerate() {
        let word = word_at(version, workers, ordinal_of(i), text)?;
        read.push(word)?;
    }
    Ok(read)
}

/// Adds turns of a worker to the moves, `count` of them.
fn push_turns(moves: &mut Vec<Move>, worker: u32, count: u32) -> Result<(), AllocError>
    ensures { OnOk result (moves.new.items ≡ moves.old.items ++ replicate count (Turn worker)) }
{
    for _i in 0..count {
        moves.push(Move::Turn(worker))?;
    }
    Ok(())
}

/// The moves of a word at the end of the moves.
fn push_word(moves: &mut Vec<Move>, word: ScheduleWord) -> Result<(), AllocError>
    ensures { OnOk result (moves.new.items ≡ moves.old.items ++ moves_of_word word) }
{
    match word {
        ScheduleWord::Turns(worker, count) => push_turns(moves, worker, count),
        ScheduleWord::Stop(worker) => Ok(moves.push(Move::Halt(worker))?),
        ScheduleWord::Departure(worker) => Ok(moves.push(Move::Leave(worker))?),
    }
}

/// The moves of the words, if they are not too many.
fn moves(alloc: Global, words: &[ScheduleWord]) -> Result<Vec<Move>, PlanFault>
    ensures { Gives (λ v. v.items) result (short_moves_of words.now) }
{
    let mut moves = Vec::new(alloc);
    for word in words {
        if moves.len() as u64 + word.count() as u64 > MOST_MOVES {
            return Err(PlanFault::TooLong);
        }
        push_word(&mut moves, *word)?;
    }
    Ok(moves)
}

/// Returns the moves of a text, of the workers up to so many.
#[tactic(auto, unfolding(crate::specs::Schedule::read_schedule))]
pub(crate) fn read_schedule(
    alloc: Global,
    version: u32,
    workers: u32,
    text: &str,
) -> Result<Vec<Move>, PlanFault>
    ensures { Gives (λ v. v.items) result (read_schedule version workers text.now) }
{
    let words = words(alloc, text.as_bytes())?;
    let words = read_words(alloc, version, workers, &words)?;
    moves(alloc, &words)
}
