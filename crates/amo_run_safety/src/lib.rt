//! The safety of a run over any number of rounds, with workers that die, persons that answer, and
//! machines that stop at any moment.
//!
//! Nothing here runs. The theorems stand in the module [`laws`]; start at
//! `commands_perform_each_line_at_most_once`.
//!
//! | here | in the glossary |
//! |---|---|
//! | stop of the machine | the machine stops, as in a power cut |
//! | to settle a journal | to recover it |
//! | partner | runner |
//! | record | round header |
//! | site, yard | the state of a run; the same with its commands |
//! | handing | a line that was handed over, by its intent |
//! | p, q | a worker, another worker |
//! | j | a job |
//! | n | the number of an intent |
#![tactic(auto)]

pub mod laws;
