//! A program over plans: its commands, the system's words and streams, the line of a fault, and the
//! exit status.
//!
//! Start at [`serve_words`], which does the command of the words. A program implements [`Command`].
#![tactic(auto)]

mod command;
mod fault;
mod program;
mod telling;
mod words;

pub use command::Command;
pub use fault::Fault;
pub use program::serve_words;
pub use telling::refuse;
