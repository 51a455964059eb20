//! The commands of the program `amo_show`, over any source and any two sinks.
//!
//! Start at [`Show`]: the words that are a command, and the text that each command writes on the
//! plan, the history or the log that is read.
#![tactic(auto)]

mod show;
mod shown;
mod told;

pub use show::Show;
pub use shown::Shown;
