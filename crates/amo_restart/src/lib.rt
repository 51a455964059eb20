//! Workers that restart from their own registers alone, after they were halted, have left or have
//! ended.
//!
//! Nothing here runs. The theorems stand in the module [`laws`]; start at `tale_is_a_story`.
//!
//! | here | in the glossary |
//! |---|---|
//! | tale, story | restart trace; its events and restarts as steps of the object |
//! | to return | to restart |
//! | to file a job | to record a job as done |
//! | p, q | a worker, another worker |
//! | j | a job |
#![tactic(auto)]

pub mod laws;
mod model;

pub use model::{Act, Entry, Tale};
