//! The refusals of a run.
use crate::outcome::Outcome;
use crate::settle::Unsettled;
use std::fmt;
use std::fmt::{Debug, Formatter};
use thiserror::Error;

/// `ExecFault`: the reason why a run returns no outcome, or one in which a thread is missing.
#[derive(Drop, Error)]
pub enum ExecFault<P: Drop, Out> {
    /// There are fewer or more payloads than jobs. They come back in their order.
    #[error("there are not as many payloads as jobs")]
    WrongCount(Vec<P>),
    /// Memory was refused, and no thread was started. All payloads come back in their order. Each
    /// was moved in and can't be copied, so none was performed.
    #[error("out of memory before any thread was started")]
    NoMemory(Vec<P>),
    /// A thread could not be started, and its worker is `NotStarted`. The outcome is that of the
    /// others.
    #[error("a thread could not be started")]
    ThreadRefused(Outcome<P, Out>),
    /// Memory was refused at the final accounting. It can be done later, by `Unsettled::settle`. If
    /// a worker could not be hired, each worker is `NotStarted`.
    #[error("out of memory when the run was to be settled")]
    Unsettled(Unsettled<P, Out>),
}

/// Prints how many payloads come back, or the ends and counts of the outcome. It prints no payload,
/// so that none needs `Debug`.
impl<P: Drop, Out> Debug for ExecFault<P, Out> {
    fn fmt<W: fmt::Write>(&self, f: &mut Formatter<W>) -> fmt::Result {
        match self {
            ExecFault::WrongCount(back) => f.debug_tuple("WrongCount").field(&back.len()).finish(),
            ExecFault::NoMemory(back) => f.debug_tuple("NoMemory").field(&back.len()).finish(),
            ExecFault::ThreadRefused(outcome) => {
                f.debug_tuple("ThreadRefused").field(outcome).finish()
            }
            ExecFault::Unsettled(rest) => f.debug_tuple("Unsettled").field(rest).finish(),
        }
    }
}
