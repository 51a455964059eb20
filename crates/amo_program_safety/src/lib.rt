//! The safety of the programs: any number of processes of `amo_worker work`, and of operators'
//! commands, perform each line at most once.
//!
//! Nothing here runs. The theorems stand in the module [`laws`]; start at
//! `programs_and_commands_perform_each_line_at_most_once`.
#![tactic(auto)]

pub mod laws;
