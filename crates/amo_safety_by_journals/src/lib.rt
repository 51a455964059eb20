//! The safety of a run by journals alone: each line is performed at most once, whatever claims and
//! registers hold.
//!
//! Nothing here runs. The theorems stand in the module [`laws`]; start at
//! `lines_are_performed_once_by_journals_alone`. A worker hands a line over only after its intent
//! is acknowledged, and after it then read all journals.
#![tactic(auto)]

pub mod laws;
