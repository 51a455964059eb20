//! The admission check of a run's folder, before a worker begins there or a command reads it, over
//! the files of the folder. `amo_dir_admission` decides; here a call is one call on a file or a
//! few.
//!
//! Start at [`open`], which makes a folder that is missing, and at [`enter`], which makes nothing.
//! The glossary's admission check is also called the door.
#![tactic(auto)]

mod admission;
mod disk;
mod door_files;
mod list;

pub use admission::{enter, look_at_folder, look_to_read, look_to_write, open};
