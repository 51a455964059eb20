//! A file in memory that tears, is cut short and fails, for tests.
//!
//! Start at [`SimFile`]. It keeps the clauses of [`amo_fs::DiskFile`], so it shows that a file can
//! keep them though a crash tears its bytes.
#![tactic(auto)]

mod file;

pub use file::SimFile;
