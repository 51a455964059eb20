//! A disk in memory that tears and fails, for tests.
//!
//! Start at [`Disk`]. A crash tears a write that wasn't synced in any of the ways that a device
//! allows. One call, of a number that the test chooses, fails. The disk keeps its first bytes and
//! each call since. From these follow the bytes that are read, the contents that a crash may leave,
//! and the stale places.
#![tactic(auto)]

mod call;
mod disk;
mod tearing;

pub use call::Call;
pub use disk::Disk;
