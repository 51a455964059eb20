//! The counts of lines by status.

/// The number of lines, and the number of lines of each status.
#[derive(Clone, Copy, Debug, PartialEq, Eq)]
pub struct Counts {
    pub lines: u64,
    pub done: u64,
    pub failed: u64,
    pub doubt: u64,
    pub untouched: u64,
    pub running: u64,
    pub open: u64,
}
