//! Answers that come too early.
ghost use Rattle.std.specs.Prelude.{◌≡◌, max, not};
ghost use Rattle.std.specs.List.{fold, list_any};
ghost use Rattle.amo_status.specs.Answers.{is_untimed, taken_from};

use crate::refusal::{Moment, Refusal};
use std::fmt;
use std::fmt::{Display, Formatter};

/// Answers that can't be taken yet: each by its number, from 1, with the reason.
#[derive(Debug, Drop)]
pub struct EarlyAnswers {
    pub answers: Vec<(usize, Refusal)>,
}

impl EarlyAnswers {
    /// Returns true if waiting is enough: the end of each attempt is known, and isn't ahead of the
    /// clock.
    pub fn are_timed(&self) -> bool
        ensures { result ≡ not (list_any (λ a. is_untimed a.1) self.now.answers.items) }
    {
        !has_untimed(&self.answers)
    }

    /// Returns from when on none of these answers comes too early, in seconds since 1970, if
    /// waiting is enough for each of them.
    pub fn taken_from(&self) -> u64
        ensures { result ≡ fold (λ last a. max last (taken_from a.1)) 0 self.now.answers.items }
    {
        last_of(&self.answers)
    }
}

/// Returns the latest of the times from which on these answers are taken.
fn last_of(answers: &[(usize, Refusal)]) -> u64
    ensures { result ≡ fold (λ last a. max last (taken_from a.1)) 0 answers.now }
{
    answers.iter().fold(0, |last, a| last.max(taken_from(a.1)))
}

/// Returns from when on an answer is taken that is refused for this reason, in seconds since 1970,
/// or 0 if its attempt didn't end too short a time ago.
fn taken_from(why: Refusal) -> u64
    ensures { result ≡ taken_from why }
{
    match why {
        Refusal::TooYoung { ended, seconds, .. } => ended.saturating_add(seconds),
        Refusal::NoIntent | Refusal::OtherLine | Refusal::NotClosing => 0,
        Refusal::NotAsked | Refusal::Running | Refusal::EndUnknown | Refusal::EndAhead { .. } => 0,
        Refusal::AnsweredOtherwise | Refusal::AnsweredSo => 0,
    }
}

/// Returns true if waiting isn't enough for one of these.
fn has_untimed(answers: &[(usize, Refusal)]) -> bool
    ensures { result ≡ list_any (λ a. is_untimed a.1) answers.now }
{
    answers.iter().any(|a| is_untimed(a.1))
}

/// Returns true if it isn't known from when on an answer is taken that is refused for this reason.
fn is_untimed(why: Refusal) -> bool
    ensures { result ≡ is_untimed why }
{
    match why {
        Refusal::EndUnknown | Refusal::EndAhead { .. } => true,
        Refusal::NoIntent | Refusal::OtherLine | Refusal::NotClosing => false,
        Refusal::NotAsked | Refusal::Running | Refusal::TooYoung { .. } => false,
        Refusal::AnsweredOtherwise | Refusal::AnsweredSo => false,
    }
}

/// Prints one message for each answer, on a line of its own. If waiting is enough, a last line has
/// the time until which to wait.
impl Display for EarlyAnswers {
    fn fmt<W: fmt::Write>(&self, f: &mut Formatter<W>) -> fmt::Result {
        let mut before = "";
        for (number, why) in self.answers.iter() {
            write!(f, "{before}answer {number}: {why}")?;
            before = "\namo_worker: ";
        }
        if self.are_timed() {
            let time = Moment(self.taken_from());
            write!(f, "{before}none of these comes too early from {time} on")?;
        }
        Ok(())
    }
}
