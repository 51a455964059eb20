//! The common parts of the texts of plans: their lines, the line of each fault, and the way from a
//! source's bytes to a sink.
//!
//! Start at [`write_of`], which reads a plan from a source, makes a text of it, and writes the text
//! to a sink.
//!
//! | here | in the glossary |
//! |---|---|
//! | n, m | the numbers of jobs and workers |
//! | p | a worker |
//! | j | a job |
#![tactic(auto)]

mod counting;
mod escaped;
mod events;
mod faults;
mod numbers;
mod of_bytes;
mod reading;
mod results;
mod tallies;
mod text;
mod unclaimed;
mod writing;

pub use counting::{count_claims, count_ends, count_performances};
pub use escaped::push_escaped;
pub use events::{claims_of, dones_of, push_events, push_workers, state_of};
pub use faults::fault_text;
pub use numbers::{push_first_line, push_first_words, push_numbers};
pub use of_bytes::{BytesText, write_of_bytes};
pub use reading::{MOST_READ, read_all};
pub use results::push_results;
pub use tallies::{jobs_in_block, push_performed, push_performed_words, push_tally};
pub use text::PlanText;
pub use unclaimed::push_unclaimed;
pub use writing::{ReplayFault, plan_of_bytes, read_source, write_of, write_text};
