//! The records of a run on its intents.
use crate::state::AttemptId;
use amo_run_log::{Attempt, Finding};

/// The records of a run on its intents, and those of the intents that are settled.
#[derive(Clone, Copy)]
pub struct RunLog<'a> {
    /// The findings of persons.
    pub findings: &'a [Finding],
    /// The journals of the workers 1, 2 and so on.
    pub journals: &'a [Vec<Attempt>],
    /// The intents whose locks the caller holds, so that those without an answer get none any more.
    pub finals: &'a [AttemptId],
}
