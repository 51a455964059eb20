//! The commands of an operator, and the locks that they take.
use amo_status::{Said, State};

/// A command of an operator.
#[derive(Debug, PartialEq, Eq, Drop)]
pub enum Command {
    /// To print how all lines stand.
    Status(Form),
    /// To print the lines that are in doubt. Attempts that nobody can report any more are recorded
    /// as in doubt. `Form::Lines` prints the same as `Form::Text`.
    Doubts(Form),
    /// To take these answers: all of them, or none if one is refused. `not-done` of an attempt that
    /// is in doubt or failed is taken once the attempt has been over for so many seconds, or at
    /// once if that is `None`.
    Answer(Vec<Said>, Option<u64>),
    /// To have each line tried again whose attempt reports that it did nothing.
    Again,
}

/// How lines are printed.
#[derive(Clone, Copy, Debug, PartialEq, Eq)]
pub enum Form {
    /// Counts, and a row for each line that is listed.
    Text,
    /// One JSON value.
    Json,
    /// A row for each line that stands so, as a sheet of answers has them.
    Lines(State),
}

/// A file of the run whose exclusive lock a command takes.
#[derive(Clone, Copy, Debug, PartialEq, Eq)]
pub enum OperatorLock {
    /// The answers: so one command at a time appends to them.
    Answers,
    /// The journal of the worker of this number: so no process is that worker.
    Journal(u64),
    /// The file of the runner of the worker of this number: so nobody runs that worker.
    Runner(u64),
    /// The file of the command of a worker's attempt, by its serial number: so nothing of that
    /// command is left.
    Command(u64, u64),
}
