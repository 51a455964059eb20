//! The parameters of a run, within their limits.
//!
//! Start at [`Givens`]: the numbers of jobs and workers, and the threshold. [`Move`] is one choice
//! of a schedule, and the constants are the limits.
#![tactic(auto)]

mod givens;
mod limits;
mod moves;

pub use givens::{Givens, GivensFault};
pub use limits::{MAX_BETA, MAX_JOBS, MAX_STEPS, MAX_TEXT, MAX_WORKERS};
pub use moves::Move;
