//! The judge of written histories, of whatever system: whether the events are a run of the one
//! sequential set of unclaimed jobs.
//!
//! Start at [`judgement`], which takes a text and returns the verdict as a text. If an event isn't
//! a step, the verdict names the first such event and the reason. The theorems stand in the module
//! [`laws`].
//!
//! | here | in the glossary |
//! |---|---|
//! | p | a worker |
//! | j | a job |
#![tactic(auto)]

mod before;
mod first_line;
mod history;
mod judging;
pub mod laws;
mod lines;
mod reading;
mod reasons;
mod refusal;
mod roll;
mod telling;

pub use judging::judgement;
