//! The operating system over files, pipes and the clock: what a worker's process calls. Start with
//! [`RunHost`]. No contract states what a file, a lock or a pipe does. Therefore a method is a few
//! calls. docs/assurance/host.md lists them, and tests fail each of them.
#![tactic(auto)]

mod boot;
mod lines;
mod registers;
mod run_host;

pub use run_host::RunHost;
