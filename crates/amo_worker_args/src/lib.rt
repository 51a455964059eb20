//! The command line of `amo_worker`: its commands and their arguments, with clap, and what they ask
//! for. Start with [`asked`].
#![tactic(auto)]

mod args;
mod by_lines;
mod command_line;

pub use args::{Misuse, Request, asked};
pub use by_lines::ByLines;
