//! The values of which system calls speak.

/// How a file or a folder is opened.
#[derive(Clone, Copy, Debug, PartialEq, Eq)]
pub enum Mode {
    /// To read.
    Read,
    /// To read and write.
    ReadWrite,
    /// To read and write. A file that is missing is made, for its owner alone.
    MakeOrReadWrite,
    /// To write, and emptied. A file that is missing is made, for its owner alone.
    MakeOrEmpty,
    /// To write. The file is made, for its owner alone: nothing may have its name.
    MakeNew,
}

/// How a lock is taken.
#[derive(Clone, Copy, Debug, PartialEq, Eq)]
pub enum LockMode {
    /// Other processes may share it.
    Shared,
    /// No other process has one.
    Exclusive,
}

/// A file, a folder or a link, as it is found under its name.
#[derive(Clone, Copy, Debug, PartialEq, Eq)]
pub struct Found {
    /// True if it is a plain file.
    pub is_file: bool,
    /// True if it is a folder.
    pub is_folder: bool,
    /// How many bytes it has.
    pub len: u64,
    /// The number of its inode.
    pub inode: u64,
}
