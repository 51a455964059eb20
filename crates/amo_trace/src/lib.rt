//! The trace of a plan's run: the effect of each move, and the text that prints the moves.
//!
//! Start at [`transitions_of`]. The module [`laws`] has the theorem on these transitions: when an
//! attempt fails.
//!
//! | here | in the glossary |
//! |---|---|
//! | p | a worker |
#![tactic(auto)]

pub mod laws;
mod lines;
mod tracing;
mod transition;
mod transitions;

pub use lines::{push_done, push_equals, push_next, push_transition};
pub use tracing::trace_text;
pub use transition::{Act, Fact, Transition, job_of, transition_at};
pub use transitions::{TracedRun, run_of, transitions_of};
