//! The meaning of the records in the journals of a run: intents, outcomes, and the lines that are
//! open.
//!
//! Start at [`open_lines`] and [`AttemptsByLine`]. [`append_entries`] adds records to a journal.
//! The theorems stand in the module [`laws`].
//!
//! | here | in the glossary |
//! |---|---|
//! | answer of an intent | outcome |
//! | finding | resolution |
//! | entry | record of an intent or an outcome |
//! | to put | to append |
#![tactic(auto)]

mod append;
mod attempts_by_line;
mod clearance;
mod entry;
mod fault;
mod finding;
mod journal;
pub mod laws;
mod numbers;
mod old_answer;
mod open;
mod put;
mod read_logs;
mod reading;

pub use append::Append;
pub use attempts_by_line::AttemptsByLine;
pub use clearance::AttemptId;
pub use entry::{Entry, Outcome, code_of};
pub use fault::Fault;
pub use finding::{
    Finding, Resolution, first_misplaced, has_finding, is_not_done, is_undone, read_findings,
};
pub use journal::{Attempt, journal_of, note, pending, read_attempts, read_entries};
pub use numbers::{three_of_bytes, two_of_bytes};
pub use old_answer::with_time;
pub use open::{open_lines, opens, reopens};
pub use put::{append_entries, append_finding};
pub use read_logs::ReadLogs;
