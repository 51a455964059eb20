//! A simulator: all workers of a run in one thread, one step at a time, in any order.
//!
//! Start at [`World`]. Its history is a run of the sequential object, the set of unclaimed jobs.
//! [`judge`] decides the same for the history of any system.
//!
//! | here | in the glossary |
//! |---|---|
//! | p | a worker |
//! | j | a job |
#![tactic(auto)]

mod answer;
mod judging;
mod process;
mod state;
mod tally;
mod world;

pub use amo_kk::Event;
pub use answer::{Alone, Turned, Verdict};
pub use judging::judge;
pub use world::World;
