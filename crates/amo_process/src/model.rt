//! The values that definitions speak of. No code makes one.

/// `Happening`: one event among the processes. The number is that of the worker.
#[derive(Clone, Copy, Debug, PartialEq, Eq)]
pub enum Happening {
    /// The process of the worker makes its next access, if it has one, and notes the value.
    Steps(u32),
    /// The process of the worker is dead, if there was one. Another begins, and knows nothing.
    Begins(u32),
    /// The process of the worker leaves, if it may.
    Leaves(u32),
}
