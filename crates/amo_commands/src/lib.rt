//! The commands of the program `amo`, over any source and any two sinks.
//!
//! Start at [`AmoCommand`]. It writes the text that a request asks for, of the plan that is read,
//! and determines the exit status.
#![tactic(auto)]

mod working;

pub use working::AmoCommand;
