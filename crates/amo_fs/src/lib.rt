//! Files of a run on a disk: atomic replacement, a file as a device, and the file systems that keep
//! what is synced.
//!
//! Start at [`replace_file`] and [`FileDevice`]. [`mount_of_id`] finds the mount of an open handle.
//! Functions on files state which system calls they make, in which order, over any implementation
//! of `SystemCalls`. No contract states what the kernel does in a call. Tests fail each call.
#![tactic(auto)]

mod device;
mod files;
mod handle;
mod local;
mod mount;
mod option;
mod parts;

pub use amo_system_calls::DiskFile;
pub use device::FileDevice;
pub use files::{
    make_and_rename, make_file, make_if_missing, open_existing, read_existing, read_synced,
    replace_file, replace_unsynced, sync_folder,
};
pub use handle::mnt_id_in;
pub use local::is_local;
pub use mount::{Mount, mount_of_id};
pub use option::{refused_default, refused_option};
