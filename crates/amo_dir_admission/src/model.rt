//! The task of a door, and the files and folders of which its calls speak.

/// The task of a door.
#[derive(Clone, Copy, Debug, PartialEq, Eq)]
pub struct Asked {
    /// True if a new run is to be made in the folder of this name. Then a folder that has an id is
    /// refused, and one that is missing is made without files first.
    pub into: bool,
    /// True if the id of a run is named. Then nothing is made.
    pub is_named: bool,
}

/// The reason for which a folder is looked at.
#[derive(Clone, Copy, Debug, PartialEq, Eq)]
pub enum Purpose {
    /// To make a run there if it has none. True if the id of a run is named: then nothing is made.
    Make(bool),
    /// To work there.
    Enter,
    /// To append answers there.
    Write,
    /// To read the run. True if the id of a run is named: then the folder must have one.
    Read(bool),
    /// To show what is damaged there.
    Look,
}

/// A folder.
#[derive(Clone, Copy, Debug, PartialEq, Eq)]
pub enum Place {
    /// The folder that holds the run's.
    Above,
    /// The run's folder.
    Run,
}

/// A file of a run.
#[derive(Clone, Copy, Debug, PartialEq, Eq)]
pub enum RunFile {
    /// `lock.round`, whose lock keeps out another process that makes the files.
    Round,
    /// The answers of operators.
    Answers,
    /// The journal of the worker of this number.
    Journal(u64),
    /// The id of the run.
    Id,
    /// `forgotten`, which is there if the run was given up.
    Forgotten,
}
