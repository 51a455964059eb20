//! The accesses that a process makes.

/// `Access`: the next load or store of a register. A place is the number of the word, from 0.
#[derive(Clone, Copy, Debug, PartialEq, Eq)]
pub enum Access {
    /// Load the word at this place.
    Load(u64),
    /// Store the value (second) at this place (first).
    Store(u64, u64),
    /// No access: the worker has ended, or the process was given an impossible value.
    Nothing,
}
