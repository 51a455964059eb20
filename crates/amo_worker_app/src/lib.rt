//! The program `amo_worker`: its commands, and the end of each of them.
//!
//! Start at [`serve`].
#![tactic(auto)]

mod commands;

pub use amo_run_faults::{Disk, Door, Fault, Item, Later};
pub use commands::serve;
