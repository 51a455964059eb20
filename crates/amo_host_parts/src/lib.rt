//! The parts that the hosts of a worker and of an operator share: the exchange of lines with the
//! runner on standard input and output, and the fault of the last call.
//!
//! Start at [`exchange`]. docs/assurance/host.md lists the system calls, and tests fail each of
//! them.
#![tactic(auto)]

mod items;
mod last_fault;
mod output;
mod runner;

pub use items::item_of_log;
pub use last_fault::{LastFault, appended};
pub use output::print;
pub use runner::{exchange, shown};
