//! The start of a run's threads.

/// The start of a run's threads.
#[derive(Clone, Copy, Debug, PartialEq, Eq)]
pub enum Started {
    /// Each of them.
    All,
    /// At least one could not be.
    NotAll,
}
