//! A run of a plan in threads, from the plan's bytes to the text of the outcome.
//!
//! Start at [`run_plan`]. It executes the jobs of the plan block by block.
//!
//! | here | in the glossary |
//! |---|---|
//! | p | a worker |
//! | b, j | a block, a job |
#![tactic(auto)]

mod block_done;
mod block_work;
mod claimers;
mod outcome;
mod outcome_lines;
mod running;
mod started;

pub use outcome::outcome_text;
pub use running::run_plan;
pub use started::Started;
