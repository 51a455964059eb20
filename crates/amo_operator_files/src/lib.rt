//! The operating system over files and the clock: what an operator's command calls. Start with
//! [`OperatorFiles`]. No contract states what a file or a lock does. Therefore a method is a few
//! calls. docs/assurance/host.md lists them, and tests fail each of them.
#![tactic(auto)]

mod old;
mod operator_files;

pub use operator_files::OperatorFiles;
