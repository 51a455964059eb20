//! The journals of a run: how one is read from its bytes, and appended to once it was recovered.
//!
//! Start at [`checked_log`], which compares a journal with what the header of the last round counts
//! of it, and at [`OpenJournal`]. Nothing here calls the system: a journal is appended to over a
//! device.
#![tactic(auto)]

mod journal;
mod logs;

pub use journal::OpenJournal;
pub use logs::{Unread, checked_log, extent_in, loss_in};
