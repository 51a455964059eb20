//! Refusals of answers.
use httpdate::HttpDate;
use std::fmt;
use std::fmt::{Display, Formatter};
use thiserror::Error;

/// The reason that an answer of a person is refused.
#[derive(Clone, Copy, Debug, PartialEq, Eq, Drop, Error)]
pub enum Refusal {
    /// The intent doesn't exist.
    #[error("no attempt has this number; take the number from `doubts` or `status`")]
    NoIntent,
    /// The intent is of another line.
    #[error("the attempt is of another line; take number and line from `doubts` or `status`")]
    OtherLine,
    /// The line is closed by another intent now.
    #[error("another attempt closes the line now; answer that one, as `status` lists it")]
    NotClosing,
    /// Nobody is asked about it: its command ended with code 0, or was never begun.
    #[error("the attempt was done, or was never begun; it takes no answer")]
    NotAsked,
    /// It may still run.
    #[error("its command may still run; wait until `doubts` lists it")]
    Running,
    /// It was answered otherwise.
    #[error("the other answer was given before; an answer stays as it is")]
    AnsweredOtherwise,
    /// It has this answer already.
    #[error("the same answer was given before; nothing is left to do")]
    AnsweredSo,
    /// It comes too early: no record says when the attempt ended.
    #[error("{why}", why = Wait::Unknown)]
    EndUnknown,
    /// It comes too early: by its record the attempt ended later than now.
    #[error("{why}", why = Wait::Ahead(*.ended, *.now))]
    EndAhead { ended: u64, now: u64 },
    /// It comes too early: so many seconds haven't passed yet since the attempt ended.
    #[error("{why}", why = Wait::Young(*.ended, *.now, *.seconds))]
    TooYoung { ended: u64, now: u64, seconds: u64 },
}

/// The message of an answer that comes too early.
#[derive(Clone, Copy, Drop)]
enum Wait {
    Unknown,
    Ahead(u64, u64),
    Young(u64, u64, u64),
}

impl Display for Wait {
    fn fmt<W: fmt::Write>(&self, f: &mut Formatter<W>) -> fmt::Result {
        match *self {
            Wait::Unknown => write!(
                f,
                "no record says when its attempt ended; wait as long as the receiver may take, then add --now"
            ),
            Wait::Ahead(ended, now) => write!(
                f,
                "its attempt ended at {}, which is ahead of the clock ({}); set the clock right, or add --now",
                Moment(ended),
                Moment(now)
            ),
            Wait::Young(ended, now, seconds) => write!(
                f,
                "its attempt ended at {}, and it is {} now; answer again {seconds} s after that end, or add --now",
                Moment(ended),
                Moment(now)
            ),
        }
    }
}

/// A time in seconds since 1970, which is printed as a date.
#[derive(Clone, Copy, Drop)]
pub(crate) struct Moment(pub u64);

impl Display for Moment {
    fn fmt<W: fmt::Write>(&self, f: &mut Formatter<W>) -> fmt::Result {
        match HttpDate::from_unix_secs(self.0) {
            Ok(date) => write!(f, "{date}"),
            Err(_) => write!(f, "second {} since 1970", self.0),
        }
    }
}
