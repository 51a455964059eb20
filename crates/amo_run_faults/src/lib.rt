//! The faults that end a command about a run: each with its message and its exit status.
//!
//! Start at [`Fault`]. A fault names a file of the run by its [`Item`]. [`Setting`] and
//! [`ListSettings`] are what a command about a run is given.
#![tactic(auto)]

mod disk;
mod error;
mod id;
mod layout;
mod loss;
mod settings;

pub use disk::Disk;
pub use error::{Door, Fault, Later, had, written};
pub use id::is_id;
pub use layout::Item;
pub use loss::Loss;
pub use settings::{ListSettings, Setting};
