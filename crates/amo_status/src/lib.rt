//! The status of each line of a run, by the journals, the answers of persons and the locks.
//!
//! Start at [`standings`], which returns for each line its status and the intent that decides on
//! it. The other calls state which answers of persons are taken, and write all that as texts. The
//! theorems stand in the module [`laws`].
//!
//! | here | in the glossary |
//! |---|---|
//! | standing, how a line stands | status of a line |
//! | answer of a person, finding | resolution |
//! | answer of an intent | outcome |
#![tactic(auto)]

mod again;
mod age;
mod answering;
mod count;
mod counting;
mod early;
mod heading;
pub mod laws;
mod listing;
mod objects;
mod refusal;
mod rows;
mod run_log;
mod said;
mod standing;
mod state;

pub use again::untouched;
pub use answering::{Quiet, may_answer};
pub use count::Counts;
pub use counting::counts;
pub use early::EarlyAnswers;
pub use listing::{doubts_text, lines_text, status_text};
pub use objects::{doubts_json, status_json};
pub use refusal::Refusal;
pub use run_log::RunLog;
pub use said::{Said, read_answers, read_one};
pub use standing::{LineStatus, standings};
pub use state::{AttemptId, State};
