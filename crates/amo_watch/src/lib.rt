//! The lines that `status --follow` prints: the attempts by their records, and the counts of lines
//! by status.
//!
//! Start at [`watch_line`].
#![tactic(auto)]

mod attempts;
mod changes;
mod line;
mod outcome;
mod row;
mod words;

pub use attempts::attempt_rows;
pub use changes::changed;
pub use line::{Head, watch_line};
pub use row::AttemptRow;
