//! The operating system as a process of the run sees it: one trait, `Host`, each method of which is
//! one call. The run's protocol (`specs/Protocol`) says which calls each phase of a process allows,
//! and which phase follows. It has a worker's whole process: it takes its number, asks what became
//! of earlier attempts, begins a round or joins one, works in it, and stays for the next one.
#![tactic(auto)]

mod host;
pub mod laws;
mod model;

pub use host::{Failed, Host};
pub use model::{Hold, LogFile, LogPart, Registers, RunLock};
