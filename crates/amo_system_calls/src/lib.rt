//! The system calls of a worker and of an operator's commands, as one trait, and the trait over the
//! standard library.
//!
//! Start at [`SystemCalls`]. Each method is one or two calls. It ensures which call was made, on
//! which path, and what came of it. So what is composed of these calls can promise their order. No
//! contract can state what the kernel does in a call: read [`Os`] line by line. The trait
//! [`DiskFile`] states which contents of a journal a crash may leave, and we assume it of files of
//! the system.
#![tactic(auto)]

mod disk_file;
mod model;
mod os;
mod system;

pub use disk_file::DiskFile;
pub use model::{Found, LockMode, Mode};
pub use os::Os;
pub use system::SystemCalls;
