//! The values of which the definitions speak.
use crate::answer::{JobResult, Reply};

/// `Try`, an attempted effect: a call outside that a process may make.
#[derive(Clone, Copy, Debug, PartialEq, Eq)]
pub enum Try {
    /// Load this word.
    Load(u64),
    /// Store to this word this value.
    Store(u64, u64),
    /// Report that its own words show this job claimed and not filed.
    Find(u32),
    /// Put into the journal, under this serial number, the intent to have this job performed.
    Intend(u64, u32),
    /// Ask whether this job may be handed over, by the intent of this serial number.
    Clear(u64, u32),
    /// Have this job performed, by the intent of this serial number.
    Perform(u64, u32),
    /// Hand the result of the intent of this serial number to the journal. The journal may hold
    /// that back until the next intent, and then append both at once.
    Note(u64, JobResult),
    /// Ask for the result of the intent of this serial number, of this line, which a former process
    /// left.
    Ask(u64, u64),
}

/// `Deed`, an effect: a call outside that a process has made.
#[derive(Clone, Copy, Debug, PartialEq, Eq)]
pub enum Deed {
    /// It has loaded this word, and this value was given.
    Loaded(u64, u64),
    /// It has stored to this word this value.
    Stored(u64, u64),
    /// It has said that its own words show this job claimed and not filed.
    Found(u32),
    /// The intent of this serial number, to have this job performed, is in the journal.
    Intended(u64, u32),
    /// It has asked whether this job may be handed over, by the intent of this serial number. The
    /// reply is true if it may. If the reply is false, the job is taken.
    Cleared(u64, u32, bool),
    /// It has asked the partner to perform this job, by the intent of this serial number, and got
    /// this reply.
    Performed(u64, u32, Reply),
    /// The journal has what became of the intent of this serial number, or holds it back until the
    /// next intent.
    Noted(u64, JobResult),
    /// It has asked what became of the intent of this serial number, of this line, and this came in
    /// answer.
    Asked(u64, u64, Reply),
    /// This was tried and has failed: it may or may not have come about.
    Fell(Try),
}
