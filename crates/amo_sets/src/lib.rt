//! Sets of jobs, one bit a job.
//!
//! Start at [`JobSet`]. The folder `specs` has the words on numbered lists, sets of numbers, counts
//! and ranks that the contracts of all crates above use.
//!
//! | here | in the glossary |
//! |---|---|
//! | n | the number of jobs that a set covers |
//! | j | a job |
#![tactic(auto)]

mod job_set;
mod lists;

pub use job_set::JobSet;
pub use lists::filled;
