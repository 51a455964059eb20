//! Any number of processes over one list of registers, each doing what is due, dying at any point
//! and beginning again.
//!
//! Nothing here runs. The theorems stand in the module [`laws`]; start at
//! `jobs_are_performed_once`.
//!
//! | here | in the glossary |
//! |---|---|
//! | moment | event of a history of processes |
//! | scene, stage | the words with each process; the point that a process has come to |
//! | course | driver |
//! | deed, try | effect, attempted effect |
//! | partner | runner |
//! | words | registers |
//! | p, q | a worker, another worker |
//! | j | a job |
//! | n | the number of an intent |
#![tactic(auto)]

pub mod laws;
mod model;

pub use model::Moment;
