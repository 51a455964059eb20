//! A journal on a disk that may lose power at any moment: a list of appends, each of which a
//! checksum chains to all before it.
//!
//! Start at [`Journal`]. **If you open a journal, recover it first**, since what is read after a
//! kill may not be on the disk.
//!
//! An append is written after a commit byte that is closed on the disk. A write of its own opens
//! that byte, once the append is on the disk. So a torn write leaves the journal with the append or
//! without it. Anything else in the file is damage, and is refused. The records mean nothing here:
//! `amo_run_log` gives them a meaning.
//!
//! | here | in the glossary |
//! |---|---|
//! | gate | commit byte |
//! | block, text | append; the append without its checksum |
//! | to put | to append |
#![tactic(auto)]

mod checksum;
mod device;
mod follow;
mod journal;
pub mod laws;
mod log;
mod memory;
mod reading;
mod steps;

pub use checksum::Checksum;
pub use device::{Device, DeviceError};
pub use follow::{Place, ReadOnError, read_on, read_whole};
pub use journal::{AppendError, Journal, RecoverError};
pub use log::{DamageKind, Log, ReadError, read_log};
pub use memory::MemoryDevice;
pub use reading::texts_in;
