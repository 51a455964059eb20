//! The folder of a run: its files by name, its identity, its locks, and its journals.
//!
//! Start at `files`. The crates below make the decisions. This crate opens, locks, reads and writes
//! the files in the order that the promises rest on.
//!
//! | here | in the glossary |
//! |---|---|
//! | record, last file of a round | round header |
//! | text of a journal | append |
#![tactic(auto)]

mod files;
mod follower;
mod following;
mod identity;
mod locks;
mod logs;
mod round;
mod state;

pub use files::{bytes_of, path_of, replaced, replaced_unsynced, sync, synced_bytes};
pub use following::FollowedFiles;
pub use identity::{Age, check_id, check_kept, first_checksum, has_id, len_of, no_id};
pub use locks::{Tried, check_number, lock_of, recovered, try_lock_of};
pub use logs::{Look, counted_in, fault_of, log_of, look_at_log};
pub use round::{record_of, replace_record};
pub use state::{known, known_again};
