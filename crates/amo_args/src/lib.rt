//! The requests of a command line of the program `amo`, as `clap` reads it.
//!
//! Start at [`asked`], which returns the request of the words.
#![tactic(auto)]

mod commands;
mod request;

pub use commands::asked;
pub use request::Request;
