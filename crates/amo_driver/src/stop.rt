//! The ends of a process, and the reasons to stop before an end.
use thiserror::Error;

/// How a process ended.
#[derive(Clone, Copy, Debug, PartialEq, Eq)]
pub enum LifeEnd {
    /// Its worker is over.
    Over,
    /// It was asked to leave, and has left.
    Left,
    /// No reply came to the intent of this serial number, and none will. The intent stays pending.
    Cut(u64),
}

/// Why a process stopped before its end.
#[derive(Clone, Copy, Debug, PartialEq, Eq, Error)]
pub enum Stop {
    /// A call outside failed. None was made after it.
    #[error("words, journal or runner: a call failed; see its error, then start again")]
    Failed,
    /// There was no memory, and nothing was done.
    #[error("out of memory")]
    NoMemory,
    /// This word was loaded with this value, which no worker can have stored there. Nothing was
    /// done after it.
    #[error("word {0}: the value {1} is impossible; stop all workers, and start a new round")]
    NoSuchNumber(u64, u64),
    /// The reply to the intent of this serial number is invalid. The intent stays pending.
    #[error("intent {0}: the reply of the runner is invalid; correct the runner, then start again")]
    NoAnswer(u64),
    /// The reply to the intent of the first serial number is one to that of the second. The intent
    /// stays pending.
    #[error("intent {0}: the runner replied to intent {1}; correct the runner, then start again")]
    OtherAnswer(u64, u64),
    /// No serial number is left for another intent. A job was claimed, and nothing was done after
    /// it.
    #[error("serial numbers: none is left; start a new run")]
    NoSerial,
    /// It had no end in 2^64 - 1 turns.
    #[error("worker: it took 2^64 - 1 turns; start a new round")]
    TooLong,
}
